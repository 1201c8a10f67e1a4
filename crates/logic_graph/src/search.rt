//! The search for an order of equations, in which each stands behind those that it reads.

ghost use Rattle.std.specs.Prelude.{◌≡◌, ◌<◌, ◌≤◌, ◌+◌, ◌++◌, ◌∷◌, ◌==◌, [], ℕ, nat_lt, IsTrue, IfOk, IfErr, OnOk, OnErr, Some, None, length, map, count_by, replicate, slice_set, slice_index_or};
ghost use Rattle.std.specs.List.{list_all};
ghost use Rattle.agm_net.specs.Formula.{formula_of, reads_below};
ghost use Rattle.agm_net.specs.Plain.{line_of};
ghost use Rattle.logic_graph.specs.Searching as spec;

use crate::GraphFault;
use agm_bits::{List, Memory};
use agm_net::{Equation, Expr};
use std::alloc::Global;

// How far the search is with a wire. The number is that of the wire's equation.
#[derive(Clone, Copy, Debug, PartialEq, Eq)]
pub(crate) enum Mark {
    New(usize),
    // The search is at what the wire reads.
    Open(usize),
    // The wire has no equation, or its equation has its place in the order.
    Done,
}

// A search from reader to read. The path has the open wires, each of which reads the next.
#[derive(Drop)]
pub(crate) struct Search {
    pub(crate) marks: List<Mark>,
    pub(crate) path: Vec<usize>,
    pub(crate) order: List<usize>,
}

// The marks at the start, for n wires.
fn first_marks(alloc: Global, equations: &[Equation], n: usize) -> Result<List<Mark>, Memory>
    requires { IsTrue (list_all (λ e. nat_lt e.wire n) equations.now) }
    ensures { IfOk result (λ marks. marks ≡ spec.marked 0 (map line_of equations.now) (replicate n Mark.Done)) }
{
    let mut marks = vec![in alloc; Mark::Done; n]?;
    for (i, equation) in equations.iter().enumerate() {
        marks[equation.wire] = Mark::New(i);
    }
    Ok(List::from_vec(marks))
}

// The first wire in an expression that is not done, where there is one.
fn waiting(marks: &[Mark], expr: &Expr) -> Option<usize>
    requires { IsTrue (reads_below (length marks.now) (formula_of expr.now)) }
    ensures { result ≡ spec.waiting marks.now (formula_of expr.now) }
{
    match expr {
        Expr::Zero | Expr::One => None,
        Expr::Wire(wire) => waiting_wire(marks, *wire),
        Expr::Not(x) => waiting(marks, x),
        Expr::And(x, y) | Expr::Or(x, y) | Expr::Xor(x, y) => {
            either(waiting(marks, x), waiting(marks, y))
        }
        Expr::Mux { select, low, high } => either(
            waiting(marks, select),
            either(waiting(marks, low), waiting(marks, high)),
        ),
    }
}

// The wire, where it is not done.
fn waiting_wire(marks: &[Mark], wire: usize) -> Option<usize>
    requires { wire < length marks.now }
    ensures { result ≡ spec.waiting_wire marks.now wire }
{
    match marks[wire] {
        Mark::Done => None,
        Mark::New(_) | Mark::Open(_) => Some(wire),
    }
}

// The first of two.
fn either(first: Option<usize>, second: Option<usize>) -> Option<usize>
    ensures { result ≡ spec.either first second }
{
    match first {
        Some(wire) => Some(wire),
        None => second,
    }
}

// The rest of a path from a wire on.
fn from_first(alloc: Global, path: &[usize], wire: usize) -> Result<List<usize>, Memory>
    ensures { IfOk result (λ ws. ws ≡ spec.from_first wire path.now) }
{
    for (i, open) in path.iter().enumerate() {
        if *open == wire {
            return List::from_slice(alloc, &path[i..]);
        }
    }
    Ok(List::new(alloc))
}

// The number of an open wire's equation.
fn number_of(marks: &[Mark], wire: usize) -> usize
    requires open { spec.left_at marks.now wire ≡ 1 }
    requires in_range { wire < length marks.now }
    ensures { slice_index_or marks.now wire Mark.Done ≡ Mark.Open result }
{
    match marks[wire] {
        Mark::Open(number) => number,
        Mark::New(_) | Mark::Done => unreachable!(),
    }
}

// The number of a new wire's equation.
fn new_number(marks: &[Mark], wire: usize) -> Option<usize>
    requires { wire < length marks.now }
    ensures { result ≡ spec.new_number (slice_index_or marks.now wire Mark.Done) }
{
    match marks[wire] {
        Mark::New(number) => Some(number),
        Mark::Open(_) | Mark::Done => None,
    }
}

impl Search {
    // Opens a new wire.
    fn open(&mut self, wire: usize, number: usize) -> Result<(), Memory>
        requires { wire < length self.old.marks }
        ensures { OnOk result (spec.state self.new ≡ spec.opened (spec.state self.old) wire number) }
    {
        self.path.push(wire)?;
        self.marks.as_mut_slice()[wire] = Mark::Open(number);
        Ok(())
    }

    // Takes the last open wire off the path: its equation is the next in the order.
    fn close(&mut self, wire: usize, number: usize) -> Result<(), Memory>
        requires { wire < length self.old.marks }
        ensures { OnOk result (spec.state self.new ≡ spec.closed (spec.state self.old) wire number) }
    {
        self.order.push(number)?;
        self.marks.as_mut_slice()[wire] = Mark::Done;
        let _ = self.path.pop();
        Ok(())
    }

    // The last wire of the path.
    fn last_open(&self, equations: &[Equation]) -> usize
        requires searched { spec.IsSearch (map line_of equations.now) (spec.state self.now) }
        requires on_path { 0 < length self.now.path.items }
        ensures { spec.IsLastOpen (spec.state self.now) result }
    {
        self.path[self.path.len() - 1]
    }

    // The number of the last open wire's equation.
    fn number_at(&self, equations: &[Equation], wire: usize) -> usize
        requires fit { IsTrue (spec.fit (length self.now.marks) (map line_of equations.now)) }
        requires searched { spec.IsSearch (map line_of equations.now) (spec.state self.now) }
        requires last_open { spec.IsLastOpen (spec.state self.now) wire }
        ensures placed { result < length equations.now }
        ensures at { spec.IsAt (map line_of equations.now) (spec.state self.now) wire result }
    {
        number_of(self.marks.as_slice(), wire)
    }

    // Opens a wire that the last open one waits for.
    fn follow(
        &mut self,
        alloc: Global,
        equations: &[Equation],
        read: usize,
    ) -> Result<(), GraphFault>
        requires searched { spec.IsSearch (map line_of equations.now) (spec.state self.old) }
        requires awaited { spec.IsAwaited (map line_of equations.now) (spec.state self.old) read }
        ensures ok { OnOk result (spec.HasTurned (map line_of equations.now) (spec.state self.old) (spec.state self.new)) }
        ensures err { IfErr result (spec.TellsLoopIn (map line_of equations.now)) }
    {
        let number = new_number(self.marks.as_slice(), read);
        match number {
            Some(number) => Ok(self.open(read, number)?),
            None => {
                let wires = from_first(alloc, self.path.as_slice(), read)?;
                Err(GraphFault::Loop { wires })
            }
        }
    }

    // One step: the last open wire opens the first wire that it waits for, or closes.
    fn turn(&mut self, alloc: Global, equations: &[Equation]) -> Result<(), GraphFault>
        requires fit { IsTrue (spec.fit (length self.old.marks) (map line_of equations.now)) }
        requires searched { spec.IsSearch (map line_of equations.now) (spec.state self.old) }
        requires on_path { 0 < length self.old.path.items }
        ensures ok { OnOk result (spec.HasTurned (map line_of equations.now) (spec.state self.old) (spec.state self.new)) }
        ensures err { IfErr result (spec.TellsLoopIn (map line_of equations.now)) }
    {
        let wire = self.last_open(equations);
        let number = self.number_at(equations, wire);
        let read = waiting(self.marks.as_slice(), &equations[number].expr);
        match read {
            None => self.close(wire, number)?,
            Some(read) => self.follow(alloc, equations, read)?,
        }
        Ok(())
    }

    // Searches from a wire on, until it is done.
    fn visit(
        &mut self,
        alloc: Global,
        equations: &[Equation],
        wire: usize,
    ) -> Result<(), GraphFault>
        requires fit { IsTrue (spec.fit (length self.old.marks) (map line_of equations.now)) }
        requires searched { spec.IsSearch (map line_of equations.now) (spec.state self.old) }
        requires off_path { self.old.path.items ≡ [] }
        requires in_range { wire < length self.old.marks }
        ensures ok { OnOk result (spec.HasVisited (map line_of equations.now) wire (spec.state self.old) (spec.state self.new)) }
        ensures err { IfErr result (spec.TellsLoopIn (map line_of equations.now)) }
    {
        let number = new_number(self.marks.as_slice(), wire);
        if let Some(number) = number {
            self.open(wire, number)?;
        }
        while !self.path.is_empty() {
            self.turn(alloc, equations)?;
        }
        Ok(())
    }
}

/// The places of equations in an order in which each stands behind those that it reads. `n` is the number of wires.
///
/// # Errors
///
/// `Loop` where there is none.
pub(crate) fn sort(
    alloc: Global,
    equations: &[Equation],
    n: usize,
) -> Result<List<usize>, GraphFault>
    requires fit { IsTrue (spec.fit n (map line_of equations.now)) }
    requires once { (w : ℕ) → count_by (λ l. l.0 == w) (map line_of equations.now) ≤ 1 }
    ensures ok { IfOk result (spec.IsOrder (map line_of equations.now)) }
    ensures err { IfErr result (spec.TellsLoopIn (map line_of equations.now)) }
{
    let mut search = Search {
        marks: first_marks(alloc, equations, n)?,
        path: Vec::new(alloc),
        order: List::new(alloc),
    };
    for equation in equations {
        search.visit(alloc, equations, equation.wire)?;
    }
    let Search { order, .. } = search;
    Ok(order)
}
