//! The graph of a net.

ghost use Rattle.std.specs.Prelude.{◌≡◌, ◌<◌, ◌≤◌, ◌+◌, All, IsTrue, IfOk, IfErr, OnOk, length, map, take, drop, slice_index_or, ◌++◌};
ghost use Rattle.std.specs.List.{list_all};
ghost use Rattle.agm_net.specs.Formula.{formula_of, reads_below};
ghost use Rattle.agm_net.specs.Plain.{line_of};
ghost use Rattle.agm_net.specs.Plain as view;
ghost use Rattle.agm_net.specs.View.{plain_of};
ghost use Rattle.agm_net.specs.Loop.{HasNoLoop, IsRanked};
ghost use Rattle.logic_graph.specs.Searching.{IsOrder, fit};
ghost use Rattle.logic_graph.specs.Drawn.{first_drawing, source_drawing, operator_drawing, net_drawing};
ghost use Rattle.logic_graph.specs.Sources.{with_sources};
ghost use Rattle.logic_graph.specs.Made.{IsMade, IsSound, AreParts};
ghost use Rattle.logic_graph.specs.Ordered.{IsOrdered};
ghost use Rattle.logic_graph.specs.GraphOf.{IsGraphOf};
ghost use Rattle.logic_graph.specs.Traces.{Computes, HasOneTrace, TellsLoop};

use crate::drawing::{Drawing, equation_numbers, register_numbers};
use crate::search::sort;
use crate::sources::{add_nodes, input_bits_of, output_bits_of, outputs_of};
use crate::{Graph, GraphFault, Node};
use agm_bits::{List, Memory};
use agm_net::{Equation, Net, Register};
use std::alloc::Global;

// The drawing of constants, input bits and the outputs of registers, for n wires.
fn draw_sources(
    alloc: Global,
    n: usize,
    inputs: &[usize],
    outputs: &[usize],
) -> Result<Drawing, Memory>
    requires inputs_fit { All (λ w. w < n) inputs.now }
    requires outputs_fit { All (λ w. w < n) outputs.now }
    ensures { IfOk result (λ d. d ≡ with_sources (λ i. Node.Q i) 0 outputs.now (with_sources (λ i. Node.Input i) 0 inputs.now (first_drawing n))) }
{
    let mut drawing = Drawing::new(alloc, n)?;
    drawing.inputs(inputs)?;
    drawing.outputs(outputs)?;
    Ok(drawing)
}

// The drawing of a net without its operators.
fn source_drawing_of(alloc: Global, net: &Net) -> Result<Drawing, Memory>
    ensures { IfOk result (λ d. d ≡ source_drawing (plain_of net.now)) }
{
    let inputs = input_bits_of(alloc, net.ports.as_slice(), net.clock)?;
    let outputs = outputs_of(alloc, net.registers.as_slice())?;
    let Some(wires) = net.wires.len().checked_add(net.registers.len()) else {
        return Err(Memory);
    };
    draw_sources(alloc, wires, inputs.as_slice(), outputs.as_slice())
}

// Adds the operators of equations in an order, and then those of registers, as of wires from n on.
fn draw_operators(
    alloc: Global,
    drawing: &mut Drawing,
    n: usize,
    order: &[usize],
    equations: &[Equation],
    registers: &[Register],
) -> Result<(), Memory>
    requires within { All (λ i. i < length equations.now) order.now }
    requires fit { IsTrue (fit (length drawing.old.of_wire) (map line_of equations.now)) }
    requires in_range { n + length registers.now ≤ length drawing.old.of_wire }
    requires reads { IsTrue (list_all (λ r. reads_below (length drawing.old.of_wire) (formula_of r.next)) registers.now) }
    ensures { OnOk result (drawing.new ≡ operator_drawing n order.now equations.now registers.now drawing.old) }
{
    let (numbers, next) = equation_numbers(alloc, equations)?;
    let next_numbers = register_numbers(alloc, registers, next)?;
    drawing.equations(order, equations, numbers.as_slice())?;
    drawing.registers(n, registers, next_numbers.as_slice())?;
    Ok(())
}

// The drawing of a net, whose equations stand in an order.
fn draw_net(alloc: Global, net: &Net, order: &[usize]) -> Result<Drawing, Memory>
    requires { IsOrder (plain_of net.now).lines order.now }
    ensures { IfOk result (λ d. d ≡ net_drawing (plain_of net.now) order.now) }
{
    let mut drawing = source_drawing_of(alloc, net)?;
    let equations = net.equations.as_slice();
    let registers = net.registers.as_slice();
    draw_operators(
        alloc,
        &mut drawing,
        net.wires.len(),
        order,
        equations,
        registers,
    )?;
    Ok(drawing)
}

// The graph of these parts.
fn graph_of(
    nodes: List<Node>,
    sinks: List<usize>,
    of_wire: List<usize>,
    numbers: List<usize>,
) -> Graph
    requires { AreParts nodes sinks of_wire numbers }
    ensures { (result.nodes ≡ nodes) × (result.sinks ≡ sinks) × (result.of_wire ≡ of_wire) × (result.numbers ≡ numbers) }
{
    Graph {
        nodes,
        sinks,
        of_wire,
        numbers,
    }
}

// The sinks of a net: the nodes of output bits, and then those of further wires, from n on.
fn sinks_of(
    alloc: Global,
    outputs: &[usize],
    of_wire: &[usize],
    n: usize,
) -> Result<List<usize>, Memory>
    requires outputs_fit { All (λ w. w < length of_wire.now) outputs.now }
    requires in_range { n ≤ length of_wire.now }
    ensures { IfOk result (λ ks. ks ≡ map (λ w. slice_index_or of_wire.now w 0) outputs.now ++ drop n of_wire.now) }
{
    let mut sinks = List::new(alloc);
    add_nodes(&mut sinks, of_wire, outputs)?;
    sinks.extend(&of_wire[n..])?;
    Ok(sinks)
}

// The first items of a list.
fn first_of(list: List<usize>, n: usize) -> List<usize>
    ensures { result ≡ take n list }
{
    let mut items = list.into_vec();
    items.truncate(n);
    List::from_vec(items)
}

// The graph of a net's drawing.
fn make_graph(alloc: Global, net: &Net, drawing: Drawing) -> Result<Graph, Memory>
    requires { IsSound (plain_of net.now) drawing }
    ensures { IfOk result (IsMade (plain_of net.now) drawing) }
{
    let outputs = output_bits_of(alloc, net.ports.as_slice())?;
    let Drawing {
        nodes,
        numbers,
        of_wire,
    } = drawing;
    let wires = net.wires.len();
    let sinks = sinks_of(alloc, outputs.as_slice(), of_wire.as_slice(), wires)?;
    Ok(graph_of(nodes, sinks, first_of(of_wire, wires), numbers))
}

// The graph of a net, whose equations stand in an order.
fn graph_in_order(alloc: Global, net: &Net, order: &[usize]) -> Result<Graph, Memory>
    requires { IsOrder (plain_of net.now).lines order.now }
    ensures { IfOk result (IsOrdered (plain_of net.now)) }
{
    let drawing = draw_net(alloc, net, order)?;
    make_graph(alloc, net, drawing)
}

/// The graph of a net.
///
/// Takes linear time and memory in the size of the net, where expressions are small: an equation is read again for each wire
/// that it waits for.
///
/// # Errors
///
/// `Loop` where the net has a loop of equations, whether or not an output or a register depends on it, and `Memory` where
/// memory runs out.
pub fn order(alloc: Global, net: &Net) -> Result<Graph, GraphFault>
    ensures graph { IfOk result (IsGraphOf (plain_of net.now)) }
    ensures computes { IfOk result (Computes (plain_of net.now)) }
    ensures one_trace { IfOk result (λ _. HasOneTrace (plain_of net.now)) }
    ensures ranked { IfOk result (λ _. IsRanked (plain_of net.now)) }
    ensures no_loop { IfOk result (λ _. HasNoLoop (plain_of net.now)) }
    ensures looped { IfErr result (TellsLoop (plain_of net.now)) }
{
    let sorted = sort(alloc, net.equations.as_slice(), net.wires.len());
    match sorted {
        Ok(order) => Ok(graph_in_order(alloc, net, order.as_slice())?),
        Err(fault) => Err(fault),
    }
}

/// The input bits of a net: the wires of its input ports' bits in port order, each from the most significant, without the clock.
///
/// # Errors
///
/// `Memory` where memory runs out.
pub fn input_bits(alloc: Global, net: &Net) -> Result<List<usize>, Memory>
    ensures { IfOk result (λ bits. bits ≡ view.input_bits (plain_of net.now)) }
{
    input_bits_of(alloc, net.ports.as_slice(), net.clock)
}
