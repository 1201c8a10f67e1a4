//! The runs of the original, beside what was seen of the masked net.

ghost use Rattle.std.specs.Prelude.{◌≡◌, ◌<◌, ◌++◌, ℕ, [], Bool, List, All, IfOk, OnOk, length, map};
ghost use Rattle.agm_net.specs.Loop.{HasNoLoop};
ghost use Rattle.agm_net.specs.Plain.{PlainNet, input_bits};
ghost use Rattle.agm_net.specs.Trace.{Row};
ghost use Rattle.agm_net.specs.View.{plain_of};
ghost use Rattle.cycle_sim.specs.HasRun.{HasRun};
ghost use Rattle.logic_graph.specs.Traces.{HasOneTrace};
ghost use Rattle.share_wiring.specs.Schedule.{reading_cycle as reading_cycle_of};
ghost use Rattle.side_by_side.specs.Beside.{AddsPairs, seen_in};
ghost use Rattle.side_by_side.specs.Pairs as spec;

use crate::Pair;
use crate::values::{bits_in, bits_of, copies, recombine, values_of};
use crate::watched::Watched;
use agm_bits::{BitRow, List, Memory};
use agm_net::Net;
use cycle_sim::{Sim, SimFault};
use share_wiring::{Balance, Report};
use std::alloc::Global;
use stimulus::Stream;

// The pair of a port, by the original's wires and the rows of its shares.
fn pair(
    alloc: Global,
    port: &Watched,
    row: &[bool],
    shares: &[BitRow],
    stream: usize,
    step: usize,
) -> Result<Pair, Memory>
    ensures { (bit : ℕ → Bool) → shares.now ≡ spec.rows_in bit port.now.shares → IfOk result (λ it. it ≡ spec.pair_by stream step (spec.bit_in row.now) bit port.now) }
{
    let plain = bits_in(alloc, row, port.bits.as_slice())?;
    let masked = recombine(alloc, shares)?;
    let shares = copies(alloc, shares)?;
    Ok(Pair {
        stream,
        step,
        port: port.port,
        plain,
        masked,
        shares,
    })
}

// Adds the pairs of a step.
fn push_step(
    alloc: Global,
    pairs: &mut List<Pair>,
    watched: &[Watched],
    row: &[bool],
    seen: &[List<BitRow>],
    stream: usize,
    step: usize,
) -> Result<(), Memory>
    requires { length seen.now ≡ length watched.now }
    ensures { (other : Row) → seen.now ≡ seen_in watched.now other → OnOk result (pairs.new ≡ pairs.old ++ map (spec.pair_by stream step (spec.bit_in row.now) (spec.bit_in other)) watched.now) }
{
    for (k, port) in watched.iter().enumerate() {
        pairs.push(pair(alloc, port, row, seen[k].as_slice(), stream, step)?)?;
    }
    Ok(())
}

// The cycle in which the outputs of a step are read, one of so many.
fn reading_cycle(report: &Report, stream: usize, step: usize, count: usize) -> usize
    requires { reading_cycle_of report.now.balance report.now.period report.now.latency stream step < count }
    ensures { result ≡ reading_cycle_of report.now.balance report.now.period report.now.latency stream step }
{
    match report.balance {
        Balance::Pipe => 1 + stream + report.period * step + report.latency,
        Balance::Gate => report.period * step + report.period,
    }
}

// A simulator of a net without a loop, before its first cycle.
fn begun(alloc: Global, net: &Net, initial: &BitRow) -> Result<Sim, Memory>
    requires no_loop { HasNoLoop (plain_of net.now) }
    requires initial { length initial.now ≡ length net.now.registers }
    ensures has_run { IfOk result (HasRun (plain_of net.now) initial.now []) }
    ensures one_trace { IfOk result (λ _. HasOneTrace (plain_of net.now)) }
{
    match Sim::new(alloc, net, initial) {
        Ok(sim) => Ok(sim),
        Err(SimFault::Memory) => Err(Memory),
        Err(SimFault::Loop { wires: _ }) => unreachable!(),
    }
}

/// Adds the pairs of a stream.
pub(crate) fn push_stream(
    alloc: Global,
    pairs: &mut List<Pair>,
    net: &Net,
    report: &Report,
    watched: &[Watched],
    seen: &[List<List<BitRow>>],
    number: usize,
    stream: &Stream,
) -> Result<(), Memory>
    requires no_loop { HasNoLoop (plain_of net.now) }
    requires initial { length stream.now.initial ≡ length net.now.registers }
    requires rows { All (λ row. length row ≡ length (input_bits (plain_of net.now))) stream.now.steps }
    requires read { (k : ℕ) → k < length stream.now.steps → reading_cycle_of report.now.balance report.now.period report.now.latency number k < length seen.now }
    requires all_seen { All (λ rows. length rows ≡ length watched.now) seen.now }
    ensures { (masked : PlainNet) (table : List Row) → watched.now ≡ map (spec.watched_of report.now masked) (spec.numbered_outputs net.now.ports) → seen.now ≡ map (seen_in watched.now) table
        → OnOk result (AddsPairs (plain_of net.now) report.now masked table number stream.now pairs.old pairs.new) }
{
    let mut sim = begun(alloc, net, &stream.initial)?;
    for (step, inputs) in stream.steps.as_slice().iter().enumerate() {
        let bits = bits_of(alloc, inputs)?;
        sim.step(bits.as_slice());
        let row = values_of(alloc, &sim)?;
        let cycle = reading_cycle(report, number, step, seen.len());
        push_step(
            alloc,
            pairs,
            watched,
            row.as_slice(),
            seen[cycle].as_slice(),
            number,
            step,
        )?;
    }
    Ok(())
}
