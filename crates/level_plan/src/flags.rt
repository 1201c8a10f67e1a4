//! Which nodes are secret.

ghost use Rattle.std.specs.Prelude.{◌≡◌, ◌<◌, ℕ, Some, IfOk, IsTrue, length, slice_get};
ghost use Rattle.logic_graph.specs.declared.nodes.XanNode.{XanNode};
ghost use Rattle.logic_graph.specs.Nodes.{xan_reads_before};
ghost use Rattle.logic_graph.specs.Settled.{bit_of};
ghost use Rattle.secrecy_spread.specs.NodeSecrets.{xan_secret};
ghost use Rattle.level_plan.specs.Passes.{has_source, AreFlags};

use agm_bits::{List, Memory};
use logic_graph::XanNode;
use std::alloc::Global;

// Whether a node is secret, by the nodes before it.
fn is_secret(node: XanNode, inputs: &[bool], registers: &[bool], flags: &[bool]) -> bool
    requires in_order { IsTrue (xan_reads_before (length flags.now) node) }
    requires sources { IsTrue (has_source (length inputs.now) (length registers.now) node) }
    ensures { result ≡ xan_secret inputs.now registers.now (bit_of flags.now) node }
{
    match node {
        XanNode::Zero | XanNode::One => false,
        XanNode::Input(i) => inputs[i],
        XanNode::Q(r) => registers[r],
        XanNode::Not(a) => flags[a],
        XanNode::Xor(a, b) | XanNode::And(a, b) => flags[a] || flags[b],
    }
}

// Tells of each node whether it is secret.
fn tell_nodes(nodes: &[XanNode], inputs: &[bool], registers: &[bool], flags: &mut [bool])
    requires as_many { length flags.old ≡ length nodes.now }
    requires in_order { (k : ℕ) (n : XanNode) → slice_get nodes.now k ≡ Some n → IsTrue (xan_reads_before k n) }
    requires sources { (k : ℕ) (n : XanNode) → slice_get nodes.now k ≡ Some n → IsTrue (has_source (length inputs.now) (length registers.now) n) }
    ensures { AreFlags nodes.now inputs.now registers.now flags.new }
{
    for (k, node) in nodes.iter().enumerate() {
        flags[k] = is_secret(*node, inputs, registers, flags);
    }
}

/// One flag for each node of a graph: whether it is secret, where each input bit and each register has its flag.
///
/// # Errors
///
/// `Memory` where memory runs out.
pub(crate) fn secret_nodes(
    alloc: Global,
    nodes: &[XanNode],
    inputs: &[bool],
    registers: &[bool],
) -> Result<List<bool>, Memory>
    requires in_order { (k : ℕ) (n : XanNode) → slice_get nodes.now k ≡ Some n → IsTrue (xan_reads_before k n) }
    requires sources { (k : ℕ) (n : XanNode) → slice_get nodes.now k ≡ Some n → IsTrue (has_source (length inputs.now) (length registers.now) n) }
    ensures { IfOk result (AreFlags nodes.now inputs.now registers.now) }
{
    let mut flags = vec![in alloc; false; nodes.len()]?;
    tell_nodes(nodes, inputs, registers, flags.as_mut_slice());
    Ok(List::from_vec(flags))
}
