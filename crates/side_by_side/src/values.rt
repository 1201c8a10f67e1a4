//! Bits of rows.

ghost use Rattle.std.specs.Prelude.{◌≡◌, IfOk, length, map};
ghost use Rattle.agm_net.specs.Formula.{xor};
ghost use Rattle.agm_net.specs.Plain.{PlainNet};
ghost use Rattle.agm_net.specs.Trace.{Row};
ghost use Rattle.share_wiring.specs.Recombine.{xor_rows as xor_rows_of};
ghost use Rattle.sim_text.specs.Steps.{IsLastRow};
ghost use Rattle.side_by_side.specs.Beside.{seen_in as seen_in_row};
ghost use Rattle.side_by_side.specs.Pairs as spec;

use crate::watched::Watched;
use agm_bits::{BitRow, List, Memory};
use cycle_sim::Sim;
use std::alloc::Global;

/// The bits of a row.
pub(crate) fn bits_of(alloc: Global, row: &BitRow) -> Result<List<bool>, Memory>
    ensures { IfOk result (λ bits. bits ≡ row.now) }
{
    let mut bits = List::new(alloc);
    for k in 0..row.len() {
        bits.push(row.get(k))?;
    }
    Ok(bits)
}

/// The values of all wires in the last cycle that was run.
pub(crate) fn values_of(alloc: Global, sim: &Sim) -> Result<List<bool>, Memory>
    ensures as_wide { IfOk result (λ values. length values ≡ length sim.now.graph.of_wire) }
    ensures row { IfOk result (λ values. (net : PlainNet) (row : Row) → IsLastRow net sim.now row → values ≡ row) }
{
    let mut values = List::new(alloc);
    for wire in 0..sim.wires() {
        values.push(sim.value(wire))?;
    }
    Ok(values)
}

// A wire's bit, 0 outside the row.
fn bit_in(row: &[bool], wire: usize) -> bool
    ensures { result ≡ spec.bit_in row.now wire }
{
    wire < row.len() && row[wire]
}

/// The bits of these wires.
pub(crate) fn bits_in(alloc: Global, row: &[bool], wires: &[usize]) -> Result<BitRow, Memory>
    ensures { IfOk result (λ bits. bits ≡ map (spec.bit_in row.now) wires.now) }
{
    let mut bits = BitRow::new(alloc);
    for wire in wires {
        bits.push(bit_in(row, *wire))?;
    }
    Ok(bits)
}

// The bits of the wires of each share.
fn rows_in(alloc: Global, row: &[bool], shares: &[List<usize>]) -> Result<List<BitRow>, Memory>
    ensures { IfOk result (λ rows. rows ≡ spec.rows_in (spec.bit_in row.now) shares.now) }
{
    let mut rows = List::new(alloc);
    for wires in shares {
        rows.push(bits_in(alloc, row, wires.as_slice())?)?;
    }
    Ok(rows)
}

/// What a row has for the watched ports.
pub(crate) fn seen_in(
    alloc: Global,
    row: &[bool],
    watched: &[Watched],
) -> Result<List<List<BitRow>>, Memory>
    ensures { IfOk result (λ seen. seen ≡ seen_in_row watched.now row.now) }
{
    let mut seen = List::new(alloc);
    for port in watched {
        seen.push(rows_in(alloc, row, port.shares.as_slice())?)?;
    }
    Ok(seen)
}

// A copy of a row.
fn copied(alloc: Global, row: &BitRow) -> Result<BitRow, Memory>
    ensures { IfOk result (λ copy. copy ≡ row.now) }
{
    let mut copy = BitRow::new(alloc);
    for k in 0..row.len() {
        copy.push(row.get(k))?;
    }
    Ok(copy)
}

/// Copies of rows.
pub(crate) fn copies(alloc: Global, rows: &[BitRow]) -> Result<List<BitRow>, Memory>
    ensures { IfOk result (λ copies. copies ≡ rows.now) }
{
    let mut copies = List::new(alloc);
    for row in rows {
        copies.push(copied(alloc, row)?)?;
    }
    Ok(copies)
}

// The sum of two bits.
fn sum_of(one: bool, other: bool) -> bool
    ensures { result ≡ xor one other }
{
    one != other
}

// Two rows added bit by bit, as far as both go.
fn xor_rows(alloc: Global, one: &BitRow, other: &BitRow) -> Result<BitRow, Memory>
    ensures { IfOk result (λ sum. sum ≡ xor_rows_of one.now other.now) }
{
    let mut sum = BitRow::new(alloc);
    for k in 0..one.len().min(other.len()) {
        sum.push(sum_of(one.get(k), other.get(k)))?;
    }
    Ok(sum)
}

// A row with others added.
fn added(alloc: Global, first: &BitRow, rest: &[BitRow]) -> Result<BitRow, Memory>
    ensures { IfOk result (λ sum. sum ≡ spec.added first.now rest.now) }
{
    let mut sum = copied(alloc, first)?;
    for row in rest {
        sum = xor_rows(alloc, &sum, row)?;
    }
    Ok(sum)
}

/// All rows added, as shares recombine.
pub(crate) fn recombine(alloc: Global, rows: &[BitRow]) -> Result<BitRow, Memory>
    ensures { IfOk result (λ sum. sum ≡ spec.recombine rows.now) }
{
    match rows {
        [] => Ok(BitRow::new(alloc)),
        [first, rest @ ..] => added(alloc, first, rest),
    }
}
