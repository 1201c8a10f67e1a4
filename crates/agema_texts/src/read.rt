ghost use Rattle.std.specs.Prelude.{◌≡◌, ◌≤◌, Ok, IfOk, IfErr, length, map};
ghost use Rattle.agm_net.specs.Loop.{HasNoLoop};
ghost use Rattle.agm_net.specs.View.{plain_of};
ghost use Rattle.cell_library.specs.Spelled.{cell_of};
ghost use Rattle.verilog_reader.specs.Grammar.{Spelled};
ghost use Rattle.verilog_reader.specs.View.{design_view};
ghost use Rattle.logic_graph.specs.GraphOf.{IsGraphOf};
ghost use Rattle.net_binding.specs.Bound.{bound};
ghost use Rattle.agema_texts.specs.Original.{IsRead, IsUnread, EndsBy, length_limit, wire_name};
ghost use Rattle.agema_texts.specs.Steps.{IsUnspelled, IsUnbound, IsLooped, IsAnyLoop};

use agema_answers::{Ended, Refusal, bind_ended};
use agm_bits::{List, Memory, Name};
use agm_net::Net;
use cell_library::Library;
use logic_graph::{Graph, GraphFault, order};
use net_binding::bind;
use std::alloc::Global;
use verilog_reader::{Design, DesignFault, read_design};

/// A design, and the net that it binds to, which has no loop.
#[derive(Debug, Drop)]
pub struct Read {
    pub design: Design,
    pub net: Net,
    /// The graph of the net.
    pub graph: Graph,
}

/// The design that bytes spell.
pub(crate) fn spelled(alloc: Global, bytes: &[u8]) -> Result<Design, Ended>
    ensures ok { IfOk result (λ d. Spelled bytes.now (design_view d)) }
    ensures err { IfErr result (EndsBy (IsUnspelled bytes.now)) }
{
    match read_design(alloc, bytes) {
        Ok(design) => Ok(design),
        Err(DesignFault::Syntax { at }) => Err(Ended::Refused(Refusal::NetSyntax { at })),
        Err(DesignFault::Memory) => Err(Ended::Memory),
    }
}

/// The net that a design binds to.
pub(crate) fn bound_net(alloc: Global, library: &Library, design: &Design) -> Result<Net, Ended>
    ensures ok { IfOk result (λ net. bound (map cell_of library.now.cells) (design_view design.now) ≡ Ok (plain_of net)) }
    ensures err { IfErr result (EndsBy (IsUnbound (map cell_of library.now.cells) (design_view design.now))) }
{
    match bind(alloc, library, design) {
        Ok(net) => Ok(net),
        Err(fault) => Err(bind_ended(fault)),
    }
}

/// The name of a wire.
pub(crate) fn name_of(alloc: Global, net: &Net, wire: usize) -> Result<Name, Memory>
    ensures { IfOk result (λ name. name ≡ wire_name (plain_of net.now) wire) }
{
    match net.wires.as_slice().get(wire) {
        Some(name) => Name::from_slice(alloc, name.as_slice()),
        None => Ok(List::new(alloc)),
    }
}

// The names of wires.
fn names_of(alloc: Global, net: &Net, wires: &[usize]) -> Result<List<Name>, Memory>
    ensures { IfOk result (λ names. names ≡ map (wire_name (plain_of net.now)) wires.now) }
{
    let mut names = List::new(alloc);
    for wire in wires {
        names.push(name_of(alloc, net, *wire)?)?;
    }
    Ok(names)
}

/// The answer for a loop.
pub(crate) fn loop_ended(alloc: Global, net: &Net, wires: &[usize]) -> Ended
    ensures { EndsBy (IsLooped (plain_of net.now) wires.now) result }
{
    match names_of(alloc, net, wires) {
        Ok(wires) => Ended::Refused(Refusal::Loop { wires }),
        Err(_) => Ended::Memory,
    }
}

// The graph of a net without a loop.
fn ordered(alloc: Global, net: &Net) -> Result<Graph, Ended>
    ensures ok { IfOk result (λ graph. HasNoLoop (plain_of net.now) × IsGraphOf (plain_of net.now) graph) }
    ensures err { IfErr result (EndsBy (IsAnyLoop (plain_of net.now))) }
{
    match order(alloc, net) {
        Ok(graph) => Ok(graph),
        Err(GraphFault::Loop { wires }) => Err(loop_ended(alloc, net, wires.as_slice())),
        Err(GraphFault::Memory) => Err(Ended::Memory),
    }
}

/// The net that a netlist's bytes give over the cells of a library.
///
/// # Errors
///
/// `Refused` where the bytes spell no design, the design breaks a rule of binding or its net has a loop, and `Memory` where memory runs out.
pub fn read_net(alloc: Global, library: &Library, bytes: &[u8]) -> Result<Read, Ended>
    requires { length bytes.now ≤ length_limit }
    ensures ok { IfOk result (λ r. IsRead (map cell_of library.now.cells) bytes.now (design_view r.design) (plain_of r.net) × IsGraphOf (plain_of r.net) r.graph) }
    ensures err { IfErr result (EndsBy (IsUnread (map cell_of library.now.cells) bytes.now)) }
{
    let design = spelled(alloc, bytes)?;
    let net = bound_net(alloc, library, &design)?;
    let graph = ordered(alloc, &net)?;
    Ok(Read { design, net, graph })
}
