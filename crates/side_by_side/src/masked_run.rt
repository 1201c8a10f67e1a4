//! The run of the masked net.

ghost use Rattle.std.specs.Prelude.{◌≡◌, ◌++◌, ◌*◌, [], IfOk, IfErr, length, reverse, take, drop};
ghost use Rattle.agm_net.specs.View.{plain_of};
ghost use Rattle.cycle_sim.specs.HasRun.{HasRun};
ghost use Rattle.cycle_sim.specs.Told.{TellsLoop};
ghost use Rattle.logic_graph.specs.Traces.{HasOneTrace};
ghost use Rattle.rand_chacha.specs.ChaCha.{key_of};
ghost use Rattle.random_draws.specs.Draws.{random_bits};
ghost use Rattle.shared_tape.specs.Driven.{with_random as with_random_of};
ghost use Rattle.shared_tape.specs.Filled.{zeros as zeros_of};
ghost use Rattle.side_by_side.specs.Beside.{HasSeen};

use crate::values::{bits_of, seen_in, values_of};
use crate::watched::Watched;
use agm_bits::{BitRow, List, Memory};
use agm_net::Net;
use cycle_sim::{Sim, SimFault};
use random_draws::RandomBits;
use std::alloc::Global;

// The random bits of a cycle.
fn random_row(
    alloc: Global,
    seed: &[u8; 32],
    cycle: usize,
    width: usize,
) -> Result<List<bool>, Memory>
    ensures { IfOk result (λ bits. bits ≡ random_bits (key_of seed.now) 0 (cycle * width) width) }
{
    let first = (cycle as u128).wrapping_mul(width as u128);
    let mut bits = RandomBits::new(seed, 0, first);
    let row = bits.row(alloc, width)?;
    let drawn = bits_of(alloc, &row)?;
    Ok(drawn)
}

// The same, the last of them first.
fn falling_row(
    alloc: Global,
    seed: &[u8; 32],
    cycle: usize,
    width: usize,
) -> Result<List<bool>, Memory>
    ensures { IfOk result (λ bits. bits ≡ reverse (random_bits (key_of seed.now) 0 (cycle * width) width)) }
{
    let mut bits = random_row(alloc, seed, cycle, width)?.into_vec();
    bits.reverse();
    Ok(List::from_vec(bits))
}

// Adds random bits to a row, behind its first bit.
fn with_random(alloc: Global, bits: &[bool], drawn: &[bool]) -> Result<List<bool>, Memory>
    ensures { IfOk result (λ whole. whole ≡ take 1 bits.now ++ (drawn.now ++ drop 1 bits.now)) }
{
    let mut whole = List::new(alloc);
    match bits {
        [] => whole.extend(drawn)?,
        [load, rest @ ..] => {
            whole.push(*load)?;
            whole.extend(drawn)?;
            whole.extend(rest)?;
        }
    }
    Ok(whole)
}

// A row of a tape with random bits behind the load signal.
fn whole_row(
    alloc: Global,
    row: &BitRow,
    seed: &[u8; 32],
    cycle: usize,
    random: usize,
) -> Result<List<bool>, Memory>
    ensures { IfOk result (λ whole. whole ≡ with_random_of (random_bits (key_of seed.now) 0 (cycle * random) random) row.now) }
{
    let bits = bits_of(alloc, row)?;
    let drawn = falling_row(alloc, seed, cycle, random)?;
    with_random(alloc, bits.as_slice(), drawn.as_slice())
}

// So many zeros.
fn zeros(alloc: Global, count: usize) -> Result<BitRow, Memory>
    ensures { IfOk result (λ row. row ≡ zeros_of count) }
{
    let mut row = BitRow::new(alloc);
    for _ in 0..count {
        row.push(false)?;
    }
    Ok(row)
}

// Runs a net from these power-up contents.
fn run(
    alloc: Global,
    net: &Net,
    power: &BitRow,
    mut sim: Sim,
    watched: &[Watched],
    rows: &[BitRow],
    random: usize,
    seed: &[u8; 32],
) -> Result<List<List<List<BitRow>>>, Memory>
    requires has_run { HasRun (plain_of net.now) power.now [] sim }
    requires one_trace { HasOneTrace (plain_of net.now) }
    requires power { power.now ≡ zeros_of (length (plain_of net.now).registers) }
    ensures { IfOk result (HasSeen (plain_of net.now) random seed.now rows.now watched.now) }
{
    let mut seen = List::new(alloc);
    for (cycle, row) in rows.iter().enumerate() {
        let inputs = whole_row(alloc, row, seed, cycle, random)?;
        if inputs.len() != sim.inputs() {
            return Err(Memory);
        }
        sim.step(inputs.as_slice());
        let values = values_of(alloc, &sim)?;
        seen.push(seen_in(alloc, values.as_slice(), watched)?)?;
    }
    Ok(seen)
}

/// Runs a net from registers at 0, on the rows of a tape with drawn random bits, and keeps what it has for the watched ports
/// in each cycle.
///
/// # Errors
///
/// `Loop` where the net has a loop. `Memory` where memory runs out, and where a row with its random bits is not as wide as
/// the net's input bits, which no net is that has the ports of a masked one.
pub(crate) fn seen_of(
    alloc: Global,
    net: &Net,
    watched: &[Watched],
    rows: &[BitRow],
    random: usize,
    seed: &[u8; 32],
) -> Result<List<List<List<BitRow>>>, SimFault>
    ensures seen { IfOk result (HasSeen (plain_of net.now) random seed.now rows.now watched.now) }
    ensures looped { IfErr result (TellsLoop (plain_of net.now)) }
{
    let power = zeros(alloc, net.registers.len())?;
    let begun = Sim::new(alloc, net, &power);
    match begun {
        Ok(sim) => Ok(run(alloc, net, &power, sim, watched, rows, random, seed)?),
        Err(fault) => Err(fault),
    }
}
