//! How far each node is carried: to the last level at which it is read.

ghost use Rattle.std.specs.Prelude.{◌≡◌, ◌<◌, ◌≤◌, ℕ, Bool, List, max, length, IsTrue, IfOk};
ghost use Rattle.logic_graph.specs.declared.nodes.XanNode.{XanNode as Node};
ghost use Rattle.logic_graph.specs.Nodes.{xan_reads_before};
ghost use Rattle.pipeline_balance.specs.Growing.{AreInOrder};
ghost use Rattle.pipeline_balance.specs.Piped.{node_at};
ghost use Rattle.pipeline_balance.specs.Reaching.{flag_at, raised, raised_by, reads_of, AreReached, AreRaised};

use agm_bits::{List, Memory};
use logic_graph::XanNode;
use std::alloc::Global;

// The greater of two levels.
fn greater(x: usize, y: usize) -> usize
    ensures { result ≡ max x y }
{
    if x < y { y } else { x }
}

// Carries a node to a level at least.
fn raise(lasts: &mut Vec<usize>, node: usize, level: usize)
    requires { node < length lasts.old.items }
    ensures { lasts.new.items ≡ raised lasts.old.items node level }
{
    let last = greater(lasts[node], level);
    lasts[node] = last;
}

// Carries two nodes.
fn raise_two(lasts: &mut Vec<usize>, a: usize, p: usize, b: usize, q: usize)
    requires { (a < length lasts.old.items) × (b < length lasts.old.items) }
    ensures { lasts.new.items ≡ raised (raised lasts.old.items a p) b q }
{
    raise(lasts, a, p);
    raise(lasts, b, q);
}

// Carries the operands of a node as far as it reads them.
fn raise_reads(
    lasts: &mut Vec<usize>,
    secret: &[bool],
    node: XanNode,
    level: usize,
    late_first: bool,
)
    requires order { IsTrue (xan_reads_before (length lasts.old.items) node) }
    requires secret { length secret.now ≡ length lasts.old.items }
    ensures { lasts.new.items ≡ raised_by lasts.old.items (reads_of (flag_at secret.now) late_first level node) }
{
    match node {
        XanNode::Xor(a, b) => raise_two(lasts, a, level, b, level),
        XanNode::And(a, b) => {
            let both = secret[a] && secret[b];
            if both {
                let late = level.saturating_sub(1);
                let early = level.saturating_sub(2);
                if late_first {
                    raise_two(lasts, a, late, b, early);
                } else {
                    raise_two(lasts, b, late, a, early);
                }
            } else {
                raise_two(lasts, a, level, b, level);
            }
        }
        XanNode::Zero | XanNode::One | XanNode::Input(_) | XanNode::Q(_) | XanNode::Not(_) => (),
    }
}

// Carries the operands of all nodes as far as they are read.
fn raise_nodes(
    lasts: &mut Vec<usize>,
    graph: &[XanNode],
    secret: &[bool],
    levels: &[usize],
    late_first: &[bool],
)
    requires order { AreInOrder graph.now }
    requires each { (length secret.now ≡ length graph.now) × (length levels.now ≡ length graph.now) × (length late_first.now ≡ length graph.now) }
    requires begun { lasts.old.items ≡ levels.now }
    ensures { (sinks : List ℕ) (depth : ℕ) → AreRaised graph.now sinks secret.now levels.now late_first.now depth (length graph.now) 0 lasts.new.items }
{
    for k in 0..graph.len() {
        raise_reads(lasts, secret, graph[k], levels[k], late_first[k]);
    }
}

// Carries sinks to the depth.
fn raise_sinks(lasts: &mut Vec<usize>, sinks: &[usize], depth: usize)
    requires { (j : ℕ) → j < length sinks.now → node_at sinks.now j < length lasts.old.items }
    ensures { (nodes : List Node) (secret : List Bool) (levels : List ℕ) (late_first : List Bool) (k : ℕ) → AreRaised nodes sinks.now secret levels late_first depth k 0 lasts.old.items → AreRaised nodes sinks.now secret levels late_first depth k (length sinks.now) lasts.new.items }
{
    for j in 0..sinks.len() {
        raise(lasts, sinks[j], depth);
    }
}

/// The last level at which each node is read: by a node, or as a sink at the depth. It is its own level where nothing reads it.
pub fn last_levels(
    alloc: Global,
    graph: &[XanNode],
    sinks: &[usize],
    secret: &[bool],
    levels: &[usize],
    late_first: &[bool],
    depth: usize,
) -> Result<List<usize>, Memory>
    requires order { AreInOrder graph.now }
    requires each { (length secret.now ≡ length graph.now) × (length levels.now ≡ length graph.now) × (length late_first.now ≡ length graph.now) }
    requires sinks { (j : ℕ) → j < length sinks.now → node_at sinks.now j < length graph.now }
    ensures one_each { IfOk result (λ lasts. length lasts ≡ length graph.now) }
    ensures reached { IfOk result (λ lasts. AreReached graph.now sinks.now secret.now levels.now late_first.now depth (node_at lasts)) }
    ensures least { IfOk result (λ lasts. (last : ℕ → ℕ) → AreReached graph.now sinks.now secret.now levels.now late_first.now depth last → (k : ℕ) → node_at lasts k ≤ last k) }
{
    let begun = List::from_slice(alloc, levels)?;
    let mut lasts = begun.into_vec();
    raise_nodes(&mut lasts, graph, secret, levels, late_first);
    raise_sinks(&mut lasts, sinks, depth);
    Ok(List::from_vec(lasts))
}
