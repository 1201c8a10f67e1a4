//! The registers to which shared inputs lead.

ghost use Rattle.std.specs.Prelude.{◌≡◌, ◌<◌, IfOk, length, slice_set};
ghost use Rattle.agm_net.specs.Loop.{HasNoLoop};
ghost use Rattle.agm_net.specs.View.{plain_of};
ghost use Rattle.logic_graph.specs.GraphOf.{IsGraphOf};
ghost use Rattle.share_wiring.specs.Same.{TellsSecrets};
ghost use Rattle.shared_tape.specs.SharedTape.{named_marks, port_marks as marks_by};

use crate::inputs::is_shared;
use agm_bits::{List, Memory};
use agm_net::{Mark, Marks, Net, Port};
use logic_graph::{Graph, GraphFault, order};
use secrecy_spread::{SpreadFault, spread};
use share_wiring::Report;
use std::alloc::Global;

// The marks of ports: those that the report names are secure.
fn port_marks(alloc: Global, report: &Report, ports: &[Port]) -> Result<List<Mark>, Memory>
    ensures { IfOk result (λ kinds. kinds ≡ marks_by report.now ports.now) }
{
    let mut kinds = List::new(alloc);
    for port in ports {
        kinds.push(if is_shared(report, port.name.as_slice()) {
            Mark::Secure
        } else {
            Mark::Unmarked
        })?;
    }
    Ok(kinds)
}

// Marks with that of the clock.
fn with_clock(kinds: List<Mark>, clock: usize) -> List<Mark>
    requires { clock < length kinds }
    ensures { result ≡ slice_set kinds clock Mark.Clock }
{
    let mut kinds = kinds.into_vec();
    kinds[clock] = Mark::Clock;
    List::from_vec(kinds)
}

// The marks of a net's ports. Its clock has no shares, whatever the report names.
fn marks_of(alloc: Global, net: &Net, report: &Report) -> Result<Marks, Memory>
    ensures { IfOk result (λ marks. marks.kinds ≡ named_marks (plain_of net.now) report.now) }
{
    let kinds = port_marks(alloc, report, net.ports.as_slice())?;
    let kinds = match net.clock {
        None => kinds,
        Some(clock) => with_clock(kinds, clock),
    };
    Ok(Marks { kinds })
}

// The graph of a net without a loop.
fn graph_of(alloc: Global, net: &Net) -> Result<Graph, Memory>
    requires { HasNoLoop (plain_of net.now) }
    ensures { IfOk result (IsGraphOf (plain_of net.now)) }
{
    match order(alloc, net) {
        Ok(graph) => Ok(graph),
        Err(GraphFault::Memory) => Err(Memory),
        Err(GraphFault::Loop { wires: _ }) => unreachable!(),
    }
}

/// Of each register whether it is secret: whether a port that the report names leads to it.
pub(crate) fn secret_registers(
    alloc: Global,
    net: &Net,
    report: &Report,
) -> Result<List<bool>, Memory>
    requires { HasNoLoop (plain_of net.now) }
    ensures { IfOk result (TellsSecrets (plain_of net.now) (named_marks (plain_of net.now) report.now)) }
{
    let graph = graph_of(alloc, net)?;
    let marks = marks_of(alloc, net, report)?;
    match spread(alloc, net, &graph, &marks) {
        Ok(secrets) => Ok(secrets.registers),
        Err(SpreadFault::Memory) => Err(Memory),
        Err(SpreadFault::Leak { port: _ }) => unreachable!(),
    }
}
