//! Nodes for formulas, one after another.

ghost use Rattle.std.specs.Prelude.{◌≡◌, ◌<◌, ◌≤◌, ◌+◌, ◌++◌, ◌∷◌, [], ℕ, All, IsTrue, IfOk, OnOk, length, map, min, ◌-◌, ◌^◌, slice_set};
ghost use Rattle.std.specs.List.{range_with_len, list_all};
ghost use Rattle.agm_net.specs.Formula.{formula_of, reads_below};
ghost use Rattle.agm_net.specs.Plain.{line_of};
ghost use Rattle.logic_graph.specs.Operators.{operators};
ghost use Rattle.logic_graph.specs.Searching.{fit};
ghost use Rattle.logic_graph.specs.Drawn as spec;
ghost use Rattle.logic_graph.specs.Sources as sources;

use crate::Node;
use agm_bits::{List, Memory};
use agm_net::{Equation, Expr, Register};
use std::alloc::Global;

// Nodes, their numbers, and the node of each wire that has one.
#[derive(Drop)]
pub(crate) struct Drawing {
    pub(crate) nodes: List<Node>,
    pub(crate) numbers: List<usize>,
    pub(crate) of_wire: List<usize>,
}

// How many operators stand in an expression, up to the greatest number.
fn operators_in(expr: &Expr) -> usize
    ensures { result ≡ min (operators (formula_of expr.now)) (2 ^ 64 - 1) }
{
    match expr {
        Expr::Zero | Expr::One | Expr::Wire(_) => 0,
        Expr::Not(x) => operators_in(x).saturating_add(1),
        Expr::And(x, y) | Expr::Or(x, y) | Expr::Xor(x, y) => operators_in(x)
            .saturating_add(operators_in(y))
            .saturating_add(1),
        Expr::Mux { select, low, high } => operators_in(select)
            .saturating_add(operators_in(low))
            .saturating_add(operators_in(high))
            .saturating_add(1),
    }
}

// The number behind those of an expression's operators.
fn number_behind(first: usize, expr: &Expr) -> Result<usize, Memory>
    ensures { IfOk result (λ n. n ≡ first + operators (formula_of expr.now)) }
{
    match first.checked_add(operators_in(expr)) {
        Some(next) if next < usize::MAX => Ok(next),
        _ => Err(Memory),
    }
}

// The number of the first operator of each equation.
pub(crate) fn equation_numbers(
    alloc: Global,
    equations: &[Equation],
) -> Result<(Vec<usize>, usize), Memory>
    ensures { IfOk result (λ r. (r.0.items ≡ spec.starts 0 (map (λ e. formula_of e.expr) equations.now)) × (r.1 ≡ spec.behind 0 (map (λ e. formula_of e.expr) equations.now))) }
{
    let mut numbers = Vec::new(alloc);
    let mut next = 0;
    for equation in equations {
        numbers.push(next)?;
        next = number_behind(next, &equation.expr)?;
    }
    Ok((numbers, next))
}

// The number of the first operator of each register, from a number on.
pub(crate) fn register_numbers(
    alloc: Global,
    registers: &[Register],
    first: usize,
) -> Result<Vec<usize>, Memory>
    ensures { IfOk result (λ v. v.items ≡ spec.starts first (map (λ r. formula_of r.next) registers.now)) }
{
    let mut numbers = Vec::new(alloc);
    let mut next = first;
    for register in registers {
        numbers.push(next)?;
        next = number_behind(next, &register.next)?;
    }
    Ok(numbers)
}

// Adds a node, and answers its place.
fn add(nodes: &mut List<Node>, node: Node) -> Result<usize, Memory>
    ensures { IfOk result (λ k. (k ≡ length nodes.old) × (nodes.new ≡ nodes.old ++ node ∷ [])) }
{
    let place = nodes.len();
    nodes.push(node)?;
    Ok(place)
}

// Adds the nodes of an expression's operators, and answers the node of the expression. Expressions are as deep as a cell's
// function, so the recursion is.
fn draw(nodes: &mut List<Node>, of_wire: &[usize], expr: &Expr) -> Result<usize, Memory>
    requires { IsTrue (reads_below (length of_wire.now) (formula_of expr.now)) }
    ensures { IfOk result (λ k. (k ≡ spec.place of_wire.now (length nodes.old) (formula_of expr.now)) × (nodes.new ≡ nodes.old ++ spec.drawn of_wire.now (length nodes.old) (formula_of expr.now))) }
{
    match expr {
        Expr::Zero => Ok(0),
        Expr::One => Ok(1),
        Expr::Wire(wire) => Ok(of_wire[*wire]),
        Expr::Not(x) => {
            let x = draw(nodes, of_wire, x)?;
            add(nodes, Node::Not(x))
        }
        Expr::And(x, y) => {
            let x = draw(nodes, of_wire, x)?;
            let y = draw(nodes, of_wire, y)?;
            add(nodes, Node::And(x, y))
        }
        Expr::Or(x, y) => {
            let x = draw(nodes, of_wire, x)?;
            let y = draw(nodes, of_wire, y)?;
            add(nodes, Node::Or(x, y))
        }
        Expr::Xor(x, y) => {
            let x = draw(nodes, of_wire, x)?;
            let y = draw(nodes, of_wire, y)?;
            add(nodes, Node::Xor(x, y))
        }
        Expr::Mux { select, low, high } => {
            let select = draw(nodes, of_wire, select)?;
            let low = draw(nodes, of_wire, low)?;
            let high = draw(nodes, of_wire, high)?;
            add(nodes, Node::Mux { select, low, high })
        }
    }
}

// Adds so many numbers that count up.
fn count_up(numbers: &mut List<usize>, first: usize, count: usize) -> Result<(), Memory>
    ensures { OnOk result (numbers.new ≡ numbers.old ++ range_with_len first count) }
{
    for i in 0..count {
        let Some(number) = first.checked_add(i) else {
            return Err(Memory);
        };
        numbers.push(number)?;
    }
    Ok(())
}

// Gives a wire its node.
fn put(of_wire: &mut List<usize>, wire: usize, node: usize)
    requires { wire < length of_wire.old }
    ensures { of_wire.new ≡ slice_set of_wire.old wire node }
{
    of_wire.as_mut_slice()[wire] = node;
}

impl Drawing {
    // A drawing of the constants, in which each of n wires has the node of 0.
    pub(crate) fn new(alloc: Global, n: usize) -> Result<Drawing, Memory>
        ensures { IfOk result (λ d. d ≡ spec.first_drawing n) }
    {
        Ok(Drawing {
            nodes: List::from_slice(alloc, &[Node::Zero, Node::One])?,
            numbers: List::from_slice(alloc, &[0, 0])?,
            of_wire: List::from_vec(vec![in alloc; 0usize; n]?),
        })
    }

    // Adds a node that is no operator, for a wire.
    fn source(&mut self, wire: usize, node: Node) -> Result<(), Memory>
        requires { wire < length self.old.of_wire }
        ensures { OnOk result (self.new ≡ sources.with_source self.old wire node) }
    {
        let place = self.nodes.len();
        self.nodes.push(node)?;
        self.numbers.push(0)?;
        put(&mut self.of_wire, wire, place);
        Ok(())
    }

    // Adds the nodes of input bits.
    pub(crate) fn inputs(&mut self, wires: &[usize]) -> Result<(), Memory>
        requires { All (λ w. w < length self.old.of_wire) wires.now }
        ensures { OnOk result (self.new ≡ sources.with_sources (λ i. Node.Input i) 0 wires.now self.old) }
    {
        for (i, wire) in wires.iter().enumerate() {
            self.source(*wire, Node::Input(i))?;
        }
        Ok(())
    }

    // Adds the nodes of registers.
    pub(crate) fn outputs(&mut self, wires: &[usize]) -> Result<(), Memory>
        requires { All (λ w. w < length self.old.of_wire) wires.now }
        ensures { OnOk result (self.new ≡ sources.with_sources (λ i. Node.Q i) 0 wires.now self.old) }
    {
        for (i, wire) in wires.iter().enumerate() {
            self.source(*wire, Node::Q(i))?;
        }
        Ok(())
    }

    // Adds an equation, whose first operator has a number.
    fn line(&mut self, wire: usize, expr: &Expr, first: usize) -> Result<(), Memory>
        requires in_range { wire < length self.old.of_wire }
        requires reads { IsTrue (reads_below (length self.old.of_wire) (formula_of expr.now)) }
        ensures { OnOk result (self.new ≡ spec.with_line self.old (wire, formula_of expr.now) first) }
    {
        let from = self.nodes.len();
        let node = draw(&mut self.nodes, self.of_wire.as_slice(), expr)?;
        count_up(&mut self.numbers, first, self.nodes.len() - from)?;
        put(&mut self.of_wire, wire, node);
        Ok(())
    }

    // Adds equations in an order.
    pub(crate) fn equations(
        &mut self,
        order: &[usize],
        equations: &[Equation],
        firsts: &[usize],
    ) -> Result<(), Memory>
        requires within { All (λ i. i < length equations.now) order.now }
        requires numbered { length firsts.now ≡ length equations.now }
        requires fit { IsTrue (fit (length self.old.of_wire) (map line_of equations.now)) }
        ensures { OnOk result (self.new ≡ spec.with_jobs (spec.jobs (map line_of equations.now) firsts.now order.now) self.old) }
    {
        for i in order {
            let equation = &equations[*i];
            self.line(equation.wire, &equation.expr, firsts[*i])?;
        }
        Ok(())
    }

    // Adds the next values of registers, as if they were equations of further wires from a wire on.
    pub(crate) fn registers(
        &mut self,
        from: usize,
        registers: &[Register],
        firsts: &[usize],
    ) -> Result<(), Memory>
        requires in_range { from + length registers.now ≤ length self.old.of_wire }
        requires numbered { length firsts.now ≡ length registers.now }
        requires reads { IsTrue (list_all (λ r. reads_below (length self.old.of_wire) (formula_of r.next)) registers.now) }
        ensures { OnOk result (self.new ≡ spec.with_jobs (spec.next_jobs from (map (λ r. formula_of r.next) registers.now) firsts.now) self.old) }
    {
        let _wires = self.of_wire.len();
        for (i, register) in registers.iter().enumerate() {
            self.line(from + i, &register.next, firsts[i])?;
        }
        Ok(())
    }
}
