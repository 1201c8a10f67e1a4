//! Values of nodes, and what registers take over.

ghost use Rattle.std.specs.Prelude.{◌≡◌, ◌<◌, ◌≤◌, ℕ, All, Some, IfOk, IsTrue, length, map, slice_get};
ghost use Rattle.logic_graph.specs.declared.nodes.Node.{Node};
ghost use Rattle.logic_graph.specs.declared.nodes.Node.TheVariants.{Input, Q};
ghost use Rattle.logic_graph.specs.Nodes.{reads_before};
ghost use Rattle.logic_graph.specs.Settled.{bit_of, node_value, IsSettled};
ghost use Rattle.cycle_sim.specs.Fits.{sources_fit};
ghost use Rattle.agm_net.specs.Plain.{PlainNet};
ghost use Rattle.logic_graph.specs.Traces as graph;
ghost use Rattle.cycle_sim.specs.Told.{TellsLoop};

use crate::SimFault;
use agm_bits::{BitRow, List, Memory};
use logic_graph::{GraphFault, Node};
use std::alloc::Global;

// The value of a node, by the values of nodes before it.
fn value_of(node: Node, inputs: &[bool], registers: &[bool], values: &[bool]) -> bool
    requires in_order { IsTrue (reads_before (length values.now) node) }
    requires sources { IsTrue (sources_fit (length inputs.now) (length registers.now) node) }
    ensures { result ≡ node_value (bit_of inputs.now) (bit_of registers.now) (bit_of values.now) node }
{
    match node {
        Node::Zero => false,
        Node::One => true,
        Node::Input(i) => inputs[i],
        Node::Q(r) => registers[r],
        Node::Not(a) => !values[a],
        Node::Xor(a, b) => values[a] != values[b],
        Node::And(a, b) => values[a] && values[b],
        Node::Or(a, b) => values[a] || values[b],
        Node::Mux { select, low, high } => {
            if values[select] {
                values[high]
            } else {
                values[low]
            }
        }
    }
}

// Gives each node its value.
fn settle_all(nodes: &[Node], inputs: &[bool], registers: &[bool], values: &mut [bool])
    requires as_many { length values.old ≡ length nodes.now }
    requires in_order { (k : ℕ) (n : Node) → slice_get nodes.now k ≡ Some n → IsTrue (reads_before k n) }
    requires sources { (k : ℕ) (n : Node) → slice_get nodes.now k ≡ Some n → IsTrue (sources_fit (length inputs.now) (length registers.now) n) }
    ensures { IsSettled nodes.now inputs.now registers.now values.new }
{
    for (k, node) in nodes.iter().enumerate() {
        values[k] = value_of(*node, inputs, registers, values);
    }
}

// The same of a list of values.
pub(crate) fn settle(nodes: &[Node], inputs: &[bool], registers: &[bool], values: &mut List<bool>)
    requires as_many { length values.old ≡ length nodes.now }
    requires in_order { (k : ℕ) (n : Node) → slice_get nodes.now k ≡ Some n → IsTrue (reads_before k n) }
    requires sources { (k : ℕ) (n : Node) → slice_get nodes.now k ≡ Some n → IsTrue (sources_fit (length inputs.now) (length registers.now) n) }
    ensures { IsSettled nodes.now inputs.now registers.now values.new }
{
    settle_all(nodes, inputs, registers, values.as_mut_slice());
}

// Gives each register the value of its sink.
fn take_over_all(registers: &mut [bool], sinks: &[usize], values: &[bool])
    requires as_many { length registers.old ≡ length sinks.now }
    requires in_range { All (λ s. s < length values.now) sinks.now }
    ensures { registers.new ≡ map (λ s. bit_of values.now s) sinks.now }
{
    for (k, sink) in sinks.iter().enumerate() {
        registers[k] = values[*sink];
    }
}

// The same of a list of registers.
pub(crate) fn take_over(registers: &mut List<bool>, sinks: &[usize], values: &[bool])
    requires as_many { length registers.old ≡ length sinks.now }
    requires in_range { All (λ s. s < length values.now) sinks.now }
    ensures { registers.new ≡ map (λ s. bit_of values.now s) sinks.now }
{
    take_over_all(registers.as_mut_slice(), sinks, values);
}

// The bits of a row.
pub(crate) fn bits_of(alloc: Global, row: &BitRow) -> Result<List<bool>, Memory>
    ensures { IfOk result (λ bits. bits ≡ row.now) }
{
    let mut bits = List::new(alloc);
    for k in 0..row.len() {
        bits.push(row.get(k))?;
    }
    Ok(bits)
}

// The fault of a net without a graph.
pub(crate) fn fault_of(fault: GraphFault) -> SimFault
    ensures { (net : PlainNet) → graph.TellsLoop net fault → TellsLoop net result }
{
    match fault {
        GraphFault::Loop { wires } => SimFault::Loop { wires },
        GraphFault::Memory => SimFault::Memory,
    }
}
