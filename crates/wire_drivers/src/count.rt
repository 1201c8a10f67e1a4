ghost use Rattle.std.specs.Prelude.{◌≡◌, ◌++◌, fold, map, filter, length, IfOk, OnOk};
ghost use Rattle.std.specs.List.{flat_map};
ghost use Rattle.agm_net.specs.Formula.{formula_of};
ghost use Rattle.agm_net.specs.Plain.{is_input};
ghost use Rattle.wire_drivers.specs.Wiring.{wires_of, wires_in, is_output, driven, read};
ghost use Rattle.wire_drivers.specs.View.{line_view, flop_view, wiring};
ghost use Rattle.wire_drivers.specs.Counted.{counted, uses};

use crate::{Flop, Line};
use agm_bits::{Memory, Name};
use agm_net::{Expr, Port, Way};
use form_bits::Bit;
use std::alloc::Global;

// Counts one more use of a wire. A count that does not fit is want of memory.
fn count_use(counts: &mut [usize], wire: usize) -> Result<(), Memory>
    ensures { OnOk result (counts.new ≡ counted counts.old wire) }
{
    if wire < counts.len() {
        match counts[wire].checked_add(1) {
            Some(count) => counts[wire] = count,
            None => return Err(Memory),
        }
    }
    Ok(())
}

// Counts a bit where it is a wire.
fn count_bit(counts: &mut [usize], bit: Bit) -> Result<(), Memory>
    ensures { OnOk result (counts.new ≡ fold counted counts.old (wires_of bit)) }
{
    match bit {
        Bit::Constant(_) => Ok(()),
        Bit::Wire(wire) => count_use(counts, wire),
    }
}

// Counts the wires of a list.
fn count_wires(counts: &mut [usize], wires: &[usize]) -> Result<(), Memory>
    ensures { OnOk result (counts.new ≡ fold counted counts.old wires.now) }
{
    for wire in wires {
        count_use(counts, *wire)?;
    }
    Ok(())
}

// Counts the bits of the input ports.
fn count_inputs(counts: &mut [usize], ports: &[Port]) -> Result<(), Memory>
    ensures { OnOk result (counts.new ≡ fold counted counts.old (flat_map (λ p. p.bits) (filter is_input ports.now))) }
{
    for port in ports {
        if port.way == Way::Input {
            count_wires(counts, port.bits.as_slice())?;
        }
    }
    Ok(())
}

// Counts the bits of the output ports.
fn count_outputs(counts: &mut [usize], ports: &[Port]) -> Result<(), Memory>
    ensures { OnOk result (counts.new ≡ fold counted counts.old (flat_map (λ p. p.bits) (filter is_output ports.now))) }
{
    for port in ports {
        if port.way == Way::Output {
            count_wires(counts, port.bits.as_slice())?;
        }
    }
    Ok(())
}

// Counts the targets of lines.
fn count_targets(counts: &mut [usize], lines: &[Line]) -> Result<(), Memory>
    ensures { OnOk result (counts.new ≡ fold counted counts.old (flat_map (λ l. wires_of l.0) (map line_view lines.now))) }
{
    for line in lines {
        count_bit(counts, line.target)?;
    }
    Ok(())
}

// Counts the outputs of registers.
fn count_qs(counts: &mut [usize], flops: &[Flop]) -> Result<(), Memory>
    ensures { OnOk result (counts.new ≡ fold counted counts.old (flat_map (λ f. wires_of f.q) (map flop_view flops.now))) }
{
    for flop in flops {
        count_bit(counts, flop.q)?;
    }
    Ok(())
}

// Counts the wires that stand in an expression.
fn count_expr(counts: &mut [usize], expr: &Expr) -> Result<(), Memory>
    ensures { OnOk result (counts.new ≡ fold counted counts.old (wires_in (formula_of expr.now))) }
{
    match expr {
        Expr::Zero | Expr::One => Ok(()),
        Expr::Wire(wire) => count_use(counts, *wire),
        Expr::Not(x) => count_expr(counts, x),
        Expr::And(x, y) | Expr::Or(x, y) | Expr::Xor(x, y) => {
            count_expr(counts, x)?;
            count_expr(counts, y)
        }
        Expr::Mux { select, low, high } => {
            count_expr(counts, select)?;
            count_expr(counts, low)?;
            count_expr(counts, high)
        }
    }
}

// Counts what lines read.
fn count_line_reads(counts: &mut [usize], lines: &[Line]) -> Result<(), Memory>
    ensures { OnOk result (counts.new ≡ fold counted counts.old (flat_map (λ l. wires_in l.1) (map line_view lines.now))) }
{
    for line in lines {
        count_expr(counts, &line.expr)?;
    }
    Ok(())
}

// Counts what registers read.
fn count_flop_reads(counts: &mut [usize], flops: &[Flop]) -> Result<(), Memory>
    ensures { OnOk result (counts.new ≡ fold counted counts.old (flat_map (λ f. wires_in f.next ++ wires_of f.clock) (map flop_view flops.now))) }
{
    for flop in flops {
        count_expr(counts, &flop.next)?;
        count_bit(counts, flop.clock)?;
    }
    Ok(())
}

// How often each of these wires is driven.
pub(crate) fn count_drivers(
    alloc: Global,
    ports: &[Port],
    wires: &[Name],
    lines: &[Line],
    flops: &[Flop],
) -> Result<Vec<usize>, Memory>
    ensures { IfOk result (λ v. v.items ≡ uses (length wires.now) (driven (wiring ports.now wires.now lines.now flops.now))) }
{
    let mut counts = vec![in alloc; 0usize; wires.len()]?;
    count_inputs(counts.as_mut_slice(), ports)?;
    count_targets(counts.as_mut_slice(), lines)?;
    count_qs(counts.as_mut_slice(), flops)?;
    Ok(counts)
}

// How often each of these wires is read.
pub(crate) fn count_readers(
    alloc: Global,
    ports: &[Port],
    wires: &[Name],
    lines: &[Line],
    flops: &[Flop],
) -> Result<Vec<usize>, Memory>
    ensures { IfOk result (λ v. v.items ≡ uses (length wires.now) (read (wiring ports.now wires.now lines.now flops.now))) }
{
    let mut counts = vec![in alloc; 0usize; wires.len()]?;
    count_outputs(counts.as_mut_slice(), ports)?;
    count_line_reads(counts.as_mut_slice(), lines)?;
    count_flop_reads(counts.as_mut_slice(), flops)?;
    Ok(counts)
}
