//! Which vertices edges lead to.

ghost use Rattle.std.specs.Prelude.{◌≡◌, ◌<◌, ◌≤◌, ◌+◌, ℕ, Bool, All, IfOk, OnOk, length, vec_len};
ghost use Rattle.std.specs.List.{AllByRecursion};
ghost use Rattle.secrecy_spread.specs.Reach as spec;

use agm_bits::{List, Memory};
use std::alloc::Global;

// An edge from one vertex to another.
#[derive(Clone, Copy, Debug, PartialEq, Eq)]
pub(crate) struct Edge {
    pub(crate) from: usize,
    pub(crate) to: usize,
}

// The edges that leave each vertex, as chains. A link is 0, or one more than the number of an edge. `heads` leads from each
// vertex to the last edge that leaves it, and `nexts` from each edge to the one before it that leaves the same vertex.
#[derive(Drop)]
struct Chains {
    heads: Vec<usize>,
    nexts: Vec<usize>,
}

// The chains of edges between n vertices.
fn chains_of(alloc: Global, edges: &[Edge], n: usize) -> Result<Chains, Memory>
    requires { All (λ e. e.from < n) edges.now }
    ensures { IfOk result (λ c. spec.AreChains edges.now n c.heads.items c.nexts.items) }
{
    let mut heads = vec![in alloc; 0usize; n]?;
    let mut nexts = Vec::new(alloc);
    for (i, edge) in edges.iter().enumerate() {
        nexts.push(heads[edge.from])?;
        heads[edge.from] = i + 1;
    }
    Ok(Chains { heads, nexts })
}

// The vertices that are marked, and those among them whose edges wait to be followed.
#[derive(Drop)]
pub(crate) struct Spreading {
    pub(crate) marked: Vec<bool>,
    pub(crate) waiting: Vec<usize>,
}

impl Spreading {
    // Marks a vertex, which then waits, where it is not marked yet.
    fn mark(&mut self, vertex: usize) -> Result<(), Memory>
        requires { vertex < vec_len self.old.marked }
        ensures { OnOk result (spec.state self.new ≡ spec.noted (spec.state self.old) vertex) }
    {
        if !self.marked[vertex] {
            self.waiting.push(vertex)?;
            self.marked[vertex] = true;
        }
        Ok(())
    }

    // Marks the vertices that the edges of a chain lead to.
    fn follow(&mut self, edges: &[Edge], nexts: &[usize], head: usize) -> Result<(), Memory>
        requires linked { spec.AreLinks edges.now nexts.now }
        requires to { All (λ e. e.to < length self.old.marked.items) edges.now }
        requires head { head ≤ length edges.now }
        ensures { OnOk result (spec.HasFollowed edges.now head (spec.state self.old) (spec.state self.new)) }
    {
        let mut link = head;
        while link > 0 {
            let edge = link - 1;
            self.mark(edges[edge].to)?;
            link = nexts[edge];
        }
        Ok(())
    }

    // Follows the edges of a vertex that waits.
    fn turn(&mut self, edges: &[Edge], chains: &Chains) -> Result<(), Memory>
        requires waits { 0 < vec_len self.old.waiting }
        requires within { AllByRecursion (λ w. w < length self.old.marked.items) self.old.waiting.items }
        requires to { All (λ e. e.to < length self.old.marked.items) edges.now }
        requires chains { spec.AreChains edges.now (length self.old.marked.items) chains.now.heads.items chains.now.nexts.items }
        ensures { OnOk result (spec.HasTurned edges.now (spec.state self.old) (spec.state self.new)) }
    {
        match self.waiting.pop() {
            None => Ok(()),
            Some(vertex) => {
                let head = chains.heads[vertex];
                self.follow(edges, chains.nexts.as_slice(), head)
            }
        }
    }

    // Follows edges until no vertex waits.
    fn run(&mut self, edges: &[Edge], chains: &Chains) -> Result<(), Memory>
        requires within { AllByRecursion (λ w. w < length self.old.marked.items) self.old.waiting.items }
        requires to { All (λ e. e.to < length self.old.marked.items) edges.now }
        requires chains { spec.AreChains edges.now (length self.old.marked.items) chains.now.heads.items chains.now.nexts.items }
        ensures { OnOk result (spec.HasRun edges.now (spec.state self.old) (spec.state self.new)) }
    {
        while !self.waiting.is_empty() {
            self.turn(edges, chains)?;
        }
        Ok(())
    }
}

// The spreading where some vertices of n are marked, which all wait.
fn started(alloc: Global, n: usize, starts: &[usize]) -> Result<Spreading, Memory>
    requires { All (λ w. w < n) starts.now }
    ensures { IfOk result (λ s. spec.HasStarted n starts.now (spec.state s)) }
{
    let mut spreading = Spreading {
        marked: vec![in alloc; false; n]?,
        waiting: Vec::new(alloc),
    };
    for vertex in starts {
        spreading.mark(*vertex)?;
    }
    Ok(spreading)
}

/// Of n vertices, those that edges lead to from some that are given, which are among them.
///
/// Takes linear time and memory in the number of vertices and edges.
///
/// # Errors
///
/// `Memory` where memory runs out.
pub(crate) fn reached(
    alloc: Global,
    n: usize,
    edges: &[Edge],
    starts: &[usize],
) -> Result<List<bool>, Memory>
    requires starts { All (λ w. w < n) starts.now }
    requires from { All (λ e. e.from < n) edges.now }
    requires to { All (λ e. e.to < n) edges.now }
    ensures { IfOk result (spec.AreReached n edges.now starts.now) }
{
    let chains = chains_of(alloc, edges, n)?;
    let mut spreading = started(alloc, n, starts)?;
    spreading.run(edges, &chains)?;
    let Spreading { marked, .. } = spreading;
    Ok(List::from_vec(marked))
}
