//! The secret nodes of a graph.

ghost use Rattle.std.specs.Prelude.{◌≡◌, ◌<◌, ℕ, Some, IfOk, IsTrue, length, slice_get};
ghost use Rattle.logic_graph.specs.declared.nodes.Node.{Node};
ghost use Rattle.logic_graph.specs.Nodes.{reads_before};
ghost use Rattle.logic_graph.specs.Settled.{bit_of};
ghost use Rattle.secrecy_spread.specs.NodeSecrets as spec;
ghost use Rattle.secrecy_spread.specs.Wires.{has_source};

use agm_bits::{List, Memory};
use logic_graph::Node;
use std::alloc::Global;

// Whether a node is secret, by the nodes before it.
fn is_secret(node: Node, inputs: &[bool], registers: &[bool], flags: &[bool]) -> bool
    requires in_order { IsTrue (reads_before (length flags.now) node) }
    requires sources { IsTrue (has_source (length inputs.now) (length registers.now) node) }
    ensures { result ≡ spec.is_secret inputs.now registers.now (bit_of flags.now) node }
{
    match node {
        Node::Zero | Node::One => false,
        Node::Input(i) => inputs[i],
        Node::Q(r) => registers[r],
        Node::Not(a) => flags[a],
        Node::Xor(a, b) | Node::And(a, b) | Node::Or(a, b) => flags[a] || flags[b],
        Node::Mux { select, low, high } => flags[select] || (flags[low] || flags[high]),
    }
}

// Tells of each node whether it is secret.
fn tell_nodes(nodes: &[Node], inputs: &[bool], registers: &[bool], flags: &mut [bool])
    requires as_many { length flags.old ≡ length nodes.now }
    requires in_order { (k : ℕ) (n : Node) → slice_get nodes.now k ≡ Some n → IsTrue (reads_before k n) }
    requires sources { (k : ℕ) (n : Node) → slice_get nodes.now k ≡ Some n → IsTrue (has_source (length inputs.now) (length registers.now) n) }
    ensures { spec.AreNodeSecrets nodes.now inputs.now registers.now flags.new }
{
    for (k, node) in nodes.iter().enumerate() {
        flags[k] = is_secret(*node, inputs, registers, flags);
    }
}

/// One flag for each node of a graph: whether it is secret, where each input bit and each register has its flag.
///
/// # Errors
///
/// `Memory` where memory runs out.
pub(crate) fn node_secrets(
    alloc: Global,
    nodes: &[Node],
    inputs: &[bool],
    registers: &[bool],
) -> Result<List<bool>, Memory>
    requires in_order { (k : ℕ) (n : Node) → slice_get nodes.now k ≡ Some n → IsTrue (reads_before k n) }
    requires sources { (k : ℕ) (n : Node) → slice_get nodes.now k ≡ Some n → IsTrue (has_source (length inputs.now) (length registers.now) n) }
    ensures { IfOk result (spec.AreNodeSecrets nodes.now inputs.now registers.now) }
{
    let mut flags = vec![in alloc; false; nodes.len()]?;
    tell_nodes(nodes, inputs, registers, flags.as_mut_slice());
    Ok(List::from_vec(flags))
}
