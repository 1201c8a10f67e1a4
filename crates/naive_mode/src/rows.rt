//! The rows of nodes that stand for the nodes of a graph.

ghost use Rattle.std.specs.Prelude.{◌≡◌, ◌+◌, ◌<◌, ◌++◌, [], ◌∷◌, ℕ, Some, All, OnOk, IfOk, IsTrue, length, map, slice_get};
ghost use Rattle.logic_graph.specs.declared.nodes.Node.{Node};
ghost use Rattle.logic_graph.specs.declared.nodes.XanNode.TheVariants as xan;
ghost use Rattle.logic_graph.specs.Nodes.{reads_before};
ghost use Rattle.logic_graph.specs.Settled.{bit_of};
ghost use Rattle.naive_mode.specs.Rows.{row, live_row, place_at, IsLaidOut};

use agm_bits::{List, Memory};
use logic_graph::{Node, XanNode};
use std::alloc::Global;

/// New nodes, and the place among them of what stands for each node of a graph: 0 for one that isn't live.
#[derive(Drop)]
pub(crate) struct Layout {
    pub nodes: List<XanNode>,
    pub places: List<usize>,
}

// Adds a node, and answers its place.
fn add(nodes: &mut List<XanNode>, node: XanNode) -> Result<usize, Memory>
    ensures added { OnOk result (nodes.new ≡ nodes.old ++ node ∷ []) }
    ensures last { IfOk result (λ place. place ≡ length nodes.old) }
{
    let place = nodes.len();
    nodes.push(node)?;
    Ok(place)
}

// Adds the sum of two nodes: the inversion of the product of their inversions.
fn add_sum(nodes: &mut List<XanNode>, x: usize, y: usize) -> Result<usize, Memory>
    ensures added { OnOk result (nodes.new ≡ nodes.old ++ xan.Not x ∷ xan.Not y ∷ xan.And (length nodes.old) (length nodes.old + 1) ∷ xan.Not (length nodes.old + 2) ∷ []) }
    ensures last { IfOk result (λ place. place ≡ length nodes.old + 3) }
{
    let x = add(nodes, XanNode::Not(x))?;
    let y = add(nodes, XanNode::Not(y))?;
    let product = add(nodes, XanNode::And(x, y))?;
    add(nodes, XanNode::Not(product))
}

// Adds the choice of `low` and `high`: `low ^ (select & (high ^ low))`.
fn add_choice(
    nodes: &mut List<XanNode>,
    select: usize,
    low: usize,
    high: usize,
) -> Result<usize, Memory>
    ensures added { OnOk result (nodes.new ≡ nodes.old ++ xan.Xor low high ∷ xan.And select (length nodes.old) ∷ xan.Xor low (length nodes.old + 1) ∷ []) }
    ensures last { IfOk result (λ place. place ≡ length nodes.old + 2) }
{
    let differ = add(nodes, XanNode::Xor(low, high))?;
    let turned = add(nodes, XanNode::And(select, differ))?;
    add(nodes, XanNode::Xor(low, turned))
}

// Adds what stands for a node, by the places of what stands for the nodes before it.
fn add_row(nodes: &mut List<XanNode>, places: &[usize], node: Node) -> Result<usize, Memory>
    requires { IsTrue (reads_before (length places.now) node) }
    ensures added { OnOk result (nodes.new ≡ nodes.old ++ row (length nodes.old) (place_at places.now) node) }
    ensures last { IfOk result (λ place. place + 1 ≡ length nodes.old + length (row (length nodes.old) (place_at places.now) node)) }
{
    match node {
        Node::Zero => add(nodes, XanNode::Zero),
        Node::One => add(nodes, XanNode::One),
        Node::Input(i) => add(nodes, XanNode::Input(i)),
        Node::Q(r) => add(nodes, XanNode::Q(r)),
        Node::Not(a) => add(nodes, XanNode::Not(places[a])),
        Node::Xor(a, b) => add(nodes, XanNode::Xor(places[a], places[b])),
        Node::And(a, b) => add(nodes, XanNode::And(places[a], places[b])),
        Node::Or(a, b) => add_sum(nodes, places[a], places[b]),
        Node::Mux { select, low, high } => add_choice(
            nodes,
            places[select],
            places[low],
            places[high],
        ),
    }
}

// Adds what stands for a node that is live.
fn add_live(
    nodes: &mut List<XanNode>,
    places: &[usize],
    live: bool,
    node: Node,
) -> Result<usize, Memory>
    requires { IsTrue (reads_before (length places.now) node) }
    ensures added { OnOk result (nodes.new ≡ nodes.old ++ live_row live (length nodes.old) (place_at places.now) node) }
    ensures last { IfOk result (λ place. IsTrue live → place + 1 ≡ length nodes.old + length (live_row live (length nodes.old) (place_at places.now) node)) }
{
    if live {
        add_row(nodes, places, node)
    } else {
        Ok(0)
    }
}

/// Lays out the rows of all live nodes.
///
/// # Errors
///
/// `Memory` where memory runs out.
pub(crate) fn lay_out(alloc: Global, nodes: &[Node], live: &[bool]) -> Result<Layout, Memory>
    requires as_many { length live.now ≡ length nodes.now }
    requires in_order { (k : ℕ) (n : Node) → slice_get nodes.now k ≡ Some n → IsTrue (reads_before k n) }
    ensures { IfOk result (IsLaidOut nodes.now live.now) }
{
    let mut rows = List::new(alloc);
    let mut places = List::new(alloc);
    for (k, node) in nodes.iter().enumerate() {
        let place = add_live(&mut rows, places.as_slice(), live[k], *node)?;
        places.push(place)?;
    }
    Ok(Layout {
        nodes: rows,
        places,
    })
}

/// The places of what stands for sinks.
///
/// # Errors
///
/// `Memory` where memory runs out.
pub(crate) fn sink_places(
    alloc: Global,
    sinks: &[usize],
    places: &[usize],
) -> Result<List<usize>, Memory>
    requires { All (λ s. s < length places.now) sinks.now }
    ensures { IfOk result (λ them. them ≡ map (place_at places.now) sinks.now) }
{
    let mut them = List::new(alloc);
    for sink in sinks {
        them.push(places[*sink])?;
    }
    Ok(them)
}
