//! The live nodes of a graph.

ghost use Rattle.std.specs.Prelude.{◌≡◌, ◌<◌, ◌==◌, ◌&&◌, ◌||◌, ℕ, false, Some, All, IfOk, IsTrue, length, slice_get};
ghost use Rattle.std.specs.List.{list_any};
ghost use Rattle.logic_graph.specs.declared.nodes.Node.{Node};
ghost use Rattle.logic_graph.specs.Live.{has_operand};
ghost use Rattle.logic_graph.specs.Nodes.{reads_before};
ghost use Rattle.logic_graph.specs.Settled.{bit_of};
ghost use Rattle.naive_mode.specs.Rows.{AreLive, AreReached};

use agm_bits::{List, Memory};
use logic_graph::Node;
use std::alloc::Global;

// Marks a node.
fn mark(live: &mut [bool], a: usize)
    requires { a < length live.old }
    ensures { (j : ℕ) → bit_of live.new j ≡ (bit_of live.old j || (a == j)) }
{
    live[a] = true;
}

// Marks the operands of a node.
fn mark_operands(live: &mut [bool], node: Node)
    requires { IsTrue (reads_before (length live.old) node) }
    ensures { (j : ℕ) → bit_of live.new j ≡ (bit_of live.old j || has_operand j node) }
{
    match node {
        Node::Zero | Node::One | Node::Input(_) | Node::Q(_) => (),
        Node::Not(a) => mark(live, a),
        Node::Xor(a, b) | Node::And(a, b) | Node::Or(a, b) => {
            mark(live, a);
            mark(live, b);
        }
        Node::Mux { select, low, high } => {
            mark(live, select);
            mark(live, low);
            mark(live, high);
        }
    }
}

// Marks the operands of a node that is marked.
fn mark_from(live: &mut [bool], k: usize, node: Node)
    requires within { k < length live.old }
    requires in_order { IsTrue (reads_before (length live.old) node) }
    ensures { (j : ℕ) → bit_of live.new j ≡ (bit_of live.old j || (bit_of live.old k && has_operand j node)) }
{
    if live[k] {
        mark_operands(live, node);
    }
}

// Marks all that marked nodes depend on. Readers come behind what they read, so nodes are gone over from the last.
fn mark_back(nodes: &[Node], live: &mut [bool])
    requires as_many { length live.old ≡ length nodes.now }
    requires in_order { (k : ℕ) (n : Node) → slice_get nodes.now k ≡ Some n → IsTrue (reads_before k n) }
    ensures { AreReached nodes.now (bit_of live.old) (bit_of live.new) }
{
    for k in (0..nodes.len()).rev() {
        mark_from(live, k, nodes[k]);
    }
}

// Marks the nodes of sinks.
fn mark_sinks(sinks: &[usize], live: &mut [bool])
    requires { All (λ s. s < length live.old) sinks.now }
    ensures { (j : ℕ) → bit_of live.new j ≡ (bit_of live.old j || list_any (λ s. s == j) sinks.now) }
{
    for sink in sinks {
        mark(live, *sink);
    }
}

// Marks the nodes that sinks depend on.
fn mark_live(nodes: &[Node], sinks: &[usize], live: &mut [bool])
    requires as_many { length live.old ≡ length nodes.now }
    requires none { (j : ℕ) → bit_of live.old j ≡ false }
    requires in_order { (k : ℕ) (n : Node) → slice_get nodes.now k ≡ Some n → IsTrue (reads_before k n) }
    requires within { All (λ s. s < length nodes.now) sinks.now }
    ensures { AreLive nodes.now sinks.now live.new }
{
    mark_sinks(sinks, live);
    mark_back(nodes, live);
}

/// One flag for each node of a graph: whether a sink depends on it, without passing a register.
///
/// # Errors
///
/// `Memory` where memory runs out.
pub(crate) fn live_nodes(
    alloc: Global,
    nodes: &[Node],
    sinks: &[usize],
) -> Result<List<bool>, Memory>
    requires in_order { (k : ℕ) (n : Node) → slice_get nodes.now k ≡ Some n → IsTrue (reads_before k n) }
    requires within { All (λ s. s < length nodes.now) sinks.now }
    ensures { IfOk result (AreLive nodes.now sinks.now) }
{
    let mut live = vec![in alloc; false; nodes.len()]?;
    mark_live(nodes, sinks, live.as_mut_slice());
    Ok(List::from_vec(live))
}
