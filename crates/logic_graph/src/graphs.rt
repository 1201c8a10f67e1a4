ghost use Rattle.std.specs.Prelude.{◌≡◌, ◌<◌, ℕ, length, slice_get, count_by, All, IsTrue, Some};
ghost use Rattle.logic_graph.specs.Nodes as kinds;
ghost use Rattle.logic_graph.specs.declared.nodes.Node.{Node};
ghost use Rattle.logic_graph.specs.declared.nodes.XanNode.{XanNode};

use crate::{Node, XanNode};
use agm_bits::List;

/// The operators of a net as nodes, each behind its operands.
#[derive(Debug, Drop)]
pub struct Graph {
    pub nodes: List<Node>,
    /// The nodes of the bits of output ports in port order, each from the most significant, and then those of the
    /// registers' next values.
    pub sinks: List<usize>,
    /// The node of each wire.
    pub of_wire: List<usize>,
    /// The number of each operator node, and 0 for every other node. Operators are numbered from 0: those of equations in
    /// their order, then those of registers, and in an expression an operator behind all its operands.
    pub numbers: List<usize>,
    ghost in_order: { (k : ℕ) (n : Node) → slice_get nodes k ≡ Some n → IsTrue (kinds.reads_before k n) },
    ghost sinks_fit: { All (λ k. k < length nodes) sinks },
    ghost wires_fit: { All (λ k. k < length nodes) of_wire },
    ghost one_each: { (j k : ℕ) (n : Node) → slice_get nodes j ≡ Some n → slice_get nodes k ≡ Some n → IsTrue (kinds.is_source n) → j ≡ k },
    ghost numbered: { length numbers ≡ length nodes },
    ghost numbers_differ: { (j k m : ℕ) (a b : Node) → slice_get nodes j ≡ Some a → slice_get nodes k ≡ Some b → IsTrue (kinds.is_operator a) → IsTrue (kinds.is_operator b) → slice_get numbers j ≡ Some m → slice_get numbers k ≡ Some m → j ≡ k },
}

impl Graph {
    /// The number of operators: inversions, products, sums, exclusive ors and choices. Walks over the nodes.
    pub fn operators(&self) -> usize
        ensures { result ≡ count_by kinds.is_operator self.now.nodes }
    {
        self.nodes
            .as_slice()
            .iter()
            .filter(|node| is_operator(**node))
            .count()
    }
}

// Whether a node is an operator.
fn is_operator(node: Node) -> bool
    ensures { result ≡ kinds.is_operator node }
{
    match node {
        Node::Zero | Node::One | Node::Input(_) | Node::Q(_) => false,
        Node::Not(_) | Node::Xor(_, _) | Node::And(_, _) | Node::Or(_, _) | Node::Mux { .. } =>
            true,
    }
}

/// A graph of inversions, products and exclusive ors, each behind its operands.
#[derive(Debug, Drop)]
pub struct Xan {
    pub nodes: List<XanNode>,
    pub sinks: List<usize>,
    ghost in_order: { (k : ℕ) (n : XanNode) → slice_get nodes k ≡ Some n → IsTrue (kinds.xan_reads_before k n) },
    ghost sinks_fit: { All (λ k. k < length nodes) sinks },
}
