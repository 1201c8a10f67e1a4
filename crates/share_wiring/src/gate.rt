//! What a builder's wires are.

ghost use Rattle.std.specs.Prelude.{◌≡◌, IfOk};
ghost use Rattle.agm_net.specs.Formula.{formula_of, f_not, f_and, f_or, f_xor, f_mux};
ghost use Rattle.share_wiring.specs.declared.gate.Gate.TheVariants as gate;
ghost use Rattle.share_wiring.specs.Gates.{gate_of as gate_of_formula, gate_formula};

use agm_bits::{Memory, Name};
use agm_net::{Expr, not_of, xor_of};
use std::alloc::Global;

/// A constant, a wire, or one operator over wires.
#[derive(Clone, Copy, Debug)]
pub enum Gate {
    Zero,
    One,
    Same(usize),
    Not(usize),
    And(usize, usize),
    Or(usize, usize),
    Xor(usize, usize),
    /// The value of the third wire where the first is 1, else of the second.
    Mux(usize, usize, usize),
}

/// What gives a wire its bit.
#[derive(Clone, Copy, Debug)]
pub enum Source {
    /// The bit of an input port.
    Input,
    Equation(Gate),
    /// The wire of the next value, and that of the clock.
    Register(usize, usize),
    /// A register whose next value is yet to be given. Until then it keeps its bit.
    Held,
}

/// A wire of a net that is built.
#[derive(Drop)]
pub struct Wire {
    pub name: Name,
    pub source: Source,
}

/// What is done to sharings, share by share.
#[derive(Clone, Copy)]
pub enum Step {
    Copy,
    /// A constant: share 0 has it, and the others are 0.
    Constant(bool),
    /// Share 0 alone, and 0 for the others.
    First,
    Not,
    Xor,
    /// The product with a public wire.
    And(usize),
    Delay,
    /// Registers whose next values are given later.
    Hold,
}

impl Gate {
    /// The gate as an expression.
    pub fn expr(self, alloc: Global) -> Result<Expr, Memory>
        ensures { IfOk result (λ e. formula_of e ≡ gate_formula self) }
    {
        match self {
            Gate::Zero => Ok(Expr::Zero),
            Gate::One => Ok(Expr::One),
            Gate::Same(k) => Ok(Expr::Wire(k)),
            Gate::Not(k) => not_of(alloc, k),
            Gate::And(j, k) => and_of(alloc, j, k),
            Gate::Or(j, k) => or_of(alloc, j, k),
            Gate::Xor(j, k) => xor_of(alloc, j, k),
            Gate::Mux(s, j, k) => mux_of(alloc, s, j, k),
        }
    }

    /// The gate of an expression that is a constant, a wire or one operator over wires, and `Zero` for other expressions.
    pub fn of(expr: &Expr) -> Gate
        ensures { result ≡ gate_of_formula (formula_of expr.now) }
    {
        match expr {
            Expr::Zero => Gate::Zero,
            Expr::One => Gate::One,
            Expr::Wire(k) => Gate::Same(*k),
            Expr::Not(x) => not_gate(x),
            Expr::And(x, y) => and_gate(x, y),
            Expr::Or(x, y) => or_gate(x, y),
            Expr::Xor(x, y) => xor_gate(x, y),
            Expr::Mux { select, low, high } => mux_gate(select, low, high),
        }
    }
}

fn and_of(alloc: Global, x: usize, y: usize) -> Result<Expr, Memory>
    ensures { IfOk result (λ e. formula_of e ≡ gate_formula (gate.And x y)) }
{
    let x = Box::new(alloc, Expr::Wire(x))?;
    let y = Box::new(alloc, Expr::Wire(y))?;
    Ok(Expr::And(x, y))
}

fn or_of(alloc: Global, x: usize, y: usize) -> Result<Expr, Memory>
    ensures { IfOk result (λ e. formula_of e ≡ gate_formula (gate.Or x y)) }
{
    let x = Box::new(alloc, Expr::Wire(x))?;
    let y = Box::new(alloc, Expr::Wire(y))?;
    Ok(Expr::Or(x, y))
}

fn mux_of(alloc: Global, s: usize, x: usize, y: usize) -> Result<Expr, Memory>
    ensures { IfOk result (λ e. formula_of e ≡ gate_formula (gate.Mux s x y)) }
{
    let select = Box::new(alloc, Expr::Wire(s))?;
    let low = Box::new(alloc, Expr::Wire(x))?;
    let high = Box::new(alloc, Expr::Wire(y))?;
    Ok(Expr::Mux { select, low, high })
}

fn not_gate(x: &Expr) -> Gate
    ensures { result ≡ gate_of_formula (f_not (formula_of x.now)) }
{
    match x {
        Expr::Wire(k) => Gate::Not(*k),
        _ => Gate::Zero,
    }
}

fn and_gate(x: &Expr, y: &Expr) -> Gate
    ensures { result ≡ gate_of_formula (f_and (formula_of x.now) (formula_of y.now)) }
{
    match (x, y) {
        (Expr::Wire(j), Expr::Wire(k)) => Gate::And(*j, *k),
        _ => Gate::Zero,
    }
}

fn or_gate(x: &Expr, y: &Expr) -> Gate
    ensures { result ≡ gate_of_formula (f_or (formula_of x.now) (formula_of y.now)) }
{
    match (x, y) {
        (Expr::Wire(j), Expr::Wire(k)) => Gate::Or(*j, *k),
        _ => Gate::Zero,
    }
}

fn xor_gate(x: &Expr, y: &Expr) -> Gate
    ensures { result ≡ gate_of_formula (f_xor (formula_of x.now) (formula_of y.now)) }
{
    match (x, y) {
        (Expr::Wire(j), Expr::Wire(k)) => Gate::Xor(*j, *k),
        _ => Gate::Zero,
    }
}

fn mux_gate(select: &Expr, low: &Expr, high: &Expr) -> Gate
    ensures { result ≡ gate_of_formula (f_mux (formula_of select.now) (formula_of low.now) (formula_of high.now)) }
{
    match (select, low, high) {
        (Expr::Wire(s), Expr::Wire(j), Expr::Wire(k)) => Gate::Mux(*s, *j, *k),
        _ => Gate::Zero,
    }
}
