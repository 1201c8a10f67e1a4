//! The graph of the naive mode.

ghost use Rattle.std.specs.Prelude.{IfOk};
ghost use Rattle.secrecy_spread.specs.NodeSecrets.{Fits};
ghost use Rattle.secrecy_spread.specs.Mode.{IsMadeBy};
ghost use Rattle.secrecy_spread.specs.Naive.{NaiveGadgets, NaiveDepth};

use crate::live::live_nodes;
use crate::rows::{Layout, lay_out, sink_places};
use agm_bits::Memory;
use logic_graph::{Graph, Xan};
use secrecy_spread::Secrets;
use std::alloc::Global;

/// The graph of the naive mode: each operator that a sink depends on, as it stands. A sum is the inversion of the product of
/// inversions, and a choice is `low ^ (select & (high ^ low))`. Of `secrets` nothing is asked: each mode has them.
///
/// Takes linear time and memory in the number of nodes.
///
/// # Errors
///
/// `Memory` where memory runs out.
pub fn naive(alloc: Global, graph: &Graph, secrets: &Secrets) -> Result<Xan, Memory>
    requires { Fits graph.now secrets.now }
    ensures { IfOk result (IsMadeBy NaiveGadgets NaiveDepth graph.now secrets.now) }
{
    let nodes = graph.nodes.as_slice();
    let sinks = graph.sinks.as_slice();
    let live = live_nodes(alloc, nodes, sinks)?;
    let Layout { nodes, places } = lay_out(alloc, nodes, live.as_slice())?;
    let sinks = sink_places(alloc, sinks, places.as_slice())?;
    Ok(Xan { nodes, sinks })
}
