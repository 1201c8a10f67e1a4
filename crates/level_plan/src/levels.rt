//! The levels of nodes.

ghost use Rattle.std.specs.Prelude.{max, min, ◌≡◌, ◌<◌, ◌≤◌, ◌+◌, ◌*◌, ◌^◌, ℕ, Some, All, IfOk, IsTrue, length, map, count_by, slice_get};
ghost use Rattle.logic_graph.specs.declared.nodes.XanNode.{XanNode};
ghost use Rattle.logic_graph.specs.Nodes.{xan_reads_before};
ghost use Rattle.logic_graph.specs.Settled.{bit_of};
ghost use Rattle.secrecy_spread.specs.Levels as spec;
ghost use Rattle.secrecy_spread.specs.Costs as costs;
ghost use Rattle.level_plan.specs.PlanOf.{level_at, is_late_first};
ghost use Rattle.level_plan.specs.Passes.{AreLevels};

use agm_bits::{List, Memory};
use logic_graph::XanNode;
use std::alloc::Global;

// The level of a product of two secret factors: the later is taken one cycle before it, the other two.
fn gadget_level(first: usize, second: usize) -> usize
    requires first { first + 2 < 2 ^ 64 }
    requires second { second + 2 < 2 ^ 64 }
    ensures { result ≡ spec.gadget_level (max first second) (min first second) }
{
    if second <= first {
        (first + 1).max(second + 2)
    } else {
        (second + 1).max(first + 2)
    }
}

// The level of a node, by the nodes before it.
fn level_of(node: XanNode, secret: &[bool], levels: &[usize]) -> usize
    requires in_order { IsTrue (xan_reads_before (length levels.now) node) }
    requires as_many { length secret.now ≡ length levels.now }
    requires low { (j : ℕ) → j < length levels.now → level_at levels.now j + 2 < 2 ^ 64 }
    ensures { result ≡ spec.xan_level (bit_of secret.now) (level_at levels.now) node }
{
    match node {
        XanNode::Zero | XanNode::One | XanNode::Input(_) | XanNode::Q(_) => 0,
        XanNode::Not(a) => levels[a],
        XanNode::Xor(a, b) => levels[a].max(levels[b]),
        XanNode::And(a, b) => {
            if secret[a] && secret[b] {
                gadget_level(levels[a], levels[b])
            } else {
                levels[a].max(levels[b])
            }
        }
    }
}

// Tells the level of each node.
fn tell_levels(nodes: &[XanNode], secret: &[bool], levels: &mut [usize])
    requires as_many { length levels.old ≡ length nodes.now }
    requires flags { length secret.now ≡ length nodes.now }
    requires zero { (j : ℕ) → level_at levels.old j ≡ 0 }
    requires small { length nodes.now < 2 ^ 60 }
    requires in_order { (k : ℕ) (n : XanNode) → slice_get nodes.now k ≡ Some n → IsTrue (xan_reads_before k n) }
    ensures { AreLevels nodes.now secret.now levels.new }
{
    for (k, node) in nodes.iter().enumerate() {
        levels[k] = level_of(*node, secret, levels);
    }
}

/// The level of each node.
///
/// # Errors
///
/// `Memory` where memory runs out.
pub(crate) fn node_levels(
    alloc: Global,
    nodes: &[XanNode],
    secret: &[bool],
) -> Result<List<usize>, Memory>
    requires flags { length secret.now ≡ length nodes.now }
    requires in_order { (k : ℕ) (n : XanNode) → slice_get nodes.now k ≡ Some n → IsTrue (xan_reads_before k n) }
    ensures { IfOk result (AreLevels nodes.now secret.now) }
{
    let mut levels = vec![in alloc; 0usize; nodes.len()]?;
    tell_levels(nodes, secret, levels.as_mut_slice());
    Ok(List::from_vec(levels))
}

// Whether a node is a product of two secret factors.
fn is_gadget(node: XanNode, secret: &[bool]) -> bool
    requires { IsTrue (xan_reads_before (length secret.now) node) }
    ensures { result ≡ costs.is_gadget (bit_of secret.now) node }
{
    match node {
        XanNode::And(a, b) => secret[a] && secret[b],
        XanNode::Zero
        | XanNode::One
        | XanNode::Input(_)
        | XanNode::Q(_)
        | XanNode::Not(_)
        | XanNode::Xor(_, _) => false,
    }
}

/// The number of products of two secret factors.
pub(crate) fn gadgets(nodes: &[XanNode], secret: &[bool]) -> usize
    requires { All (λ n. IsTrue (xan_reads_before (length secret.now) n)) nodes.now }
    ensures { result ≡ count_by (costs.is_gadget (bit_of secret.now)) nodes.now }
{
    nodes
        .iter()
        .filter(|node| is_gadget(**node, secret))
        .count()
}

// Whether the first operand of a node is the late one of a gadget.
fn is_late(node: XanNode, secret: &[bool], levels: &[usize]) -> bool
    requires in_order { IsTrue (xan_reads_before (length levels.now) node) }
    requires as_many { length secret.now ≡ length levels.now }
    ensures { result ≡ is_late_first (bit_of secret.now) (level_at levels.now) node }
{
    match node {
        XanNode::And(a, b) => (secret[a] && secret[b]) && levels[b] <= levels[a],
        XanNode::Zero
        | XanNode::One
        | XanNode::Input(_)
        | XanNode::Q(_)
        | XanNode::Not(_)
        | XanNode::Xor(_, _) => false,
    }
}

/// One flag for each node: whether its first operand is the late one of a gadget.
///
/// # Errors
///
/// `Memory` where memory runs out.
pub(crate) fn late_operands(
    alloc: Global,
    nodes: &[XanNode],
    secret: &[bool],
    levels: &[usize],
) -> Result<List<bool>, Memory>
    requires in_order { All (λ n. IsTrue (xan_reads_before (length levels.now) n)) nodes.now }
    requires as_many { length secret.now ≡ length levels.now }
    ensures { IfOk result (λ late. late ≡ map (is_late_first (bit_of secret.now) (level_at levels.now)) nodes.now) }
{
    let mut late = List::new(alloc);
    for node in nodes {
        late.push(is_late(*node, secret, levels))?;
    }
    Ok(late)
}

/// The greatest level of a secret sink, and 0 where no sink is secret.
pub(crate) fn depth(sinks: &[usize], secret: &[bool], levels: &[usize]) -> usize
    requires sinks { All (λ s. s < length levels.now) sinks.now }
    requires as_many { length secret.now ≡ length levels.now }
    ensures { result ≡ spec.depth_of (bit_of secret.now) (level_at levels.now) sinks.now }
{
    let mut depth = 0;
    for sink in sinks {
        if secret[*sink] {
            depth = levels[*sink].max(depth);
        }
    }
    depth
}
