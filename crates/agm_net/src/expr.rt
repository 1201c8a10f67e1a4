ghost use Rattle.std.specs.Prelude.{◌≡◌, IfOk};
ghost use Rattle.agm_net.specs.Formula.{formula_of, reads_below, f_not, f_xor, f_wire};

use agm_bits::Memory;
use std::alloc::Global;

/// An expression over wires.
#[derive(Debug, Drop)]
pub enum Expr {
    Zero,
    One,
    Wire(usize),
    Not(Box<Expr>),
    And(Box<Expr>, Box<Expr>),
    Or(Box<Expr>, Box<Expr>),
    Xor(Box<Expr>, Box<Expr>),
    /// The value of `high` where `select` is 1, else of `low`.
    Mux {
        select: Box<Expr>,
        low: Box<Expr>,
        high: Box<Expr>,
    },
}

/// An equation: in every cycle the wire has the expression's value.
#[derive(Debug, Drop)]
pub struct Equation {
    pub wire: usize,
    pub expr: Expr,
}

/// A register: the wire `q` has the value that `next` had in the cycle before.
#[derive(Debug, Drop)]
pub struct Register {
    pub q: usize,
    pub next: Expr,
    pub clock: usize,
}

/// The inversion of a wire.
pub fn not_of(alloc: Global, wire: usize) -> Result<Expr, Memory>
    ensures { IfOk result (λ e. formula_of e ≡ f_not (f_wire wire)) }
{
    Ok(Expr::Not(Box::new(alloc, Expr::Wire(wire))?))
}

/// The exclusive or of two wires.
pub fn xor_of(alloc: Global, x: usize, y: usize) -> Result<Expr, Memory>
    ensures { IfOk result (λ e. formula_of e ≡ f_xor (f_wire x) (f_wire y)) }
{
    let x = Box::new(alloc, Expr::Wire(x))?;
    let y = Box::new(alloc, Expr::Wire(y))?;
    Ok(Expr::Xor(x, y))
}

/// Whether each wire that stands in an expression is below a number.
pub fn is_within(expr: &Expr, n: usize) -> bool
    ensures { result ≡ reads_below n (formula_of expr.now) }
{
    match expr {
        Expr::Zero | Expr::One => true,
        Expr::Wire(k) => *k < n,
        Expr::Not(x) => is_within(x, n),
        Expr::And(x, y) | Expr::Or(x, y) | Expr::Xor(x, y) => is_within(x, n) && is_within(y, n),
        Expr::Mux { select, low, high } => {
            is_within(select, n) && (is_within(low, n) && is_within(high, n))
        }
    }
}
