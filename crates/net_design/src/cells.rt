//! What states an equation or a register.

ghost use Rattle.std.specs.Prelude.{◌≡◌};
ghost use Rattle.agm_net.specs.Formula.{formula_of};
ghost use Rattle.net_design.specs.Design as spec;

use agm_net::Expr;

/// What states the expression of an equation.
#[derive(Clone, Copy)]
pub enum Cell {
    Constant(bool),
    Wire(usize),
    Not(usize),
    And(usize, usize),
    Or(usize, usize),
    Xor(usize, usize),
    Mux(usize, usize, usize),
    Other,
}

/// What a register stores.
#[derive(Clone, Copy)]
pub enum Next {
    Wire(usize),
    Enabled(usize, usize),
    Other,
}

/// The cell of an expression.
pub(crate) fn cell_of(expr: &Expr) -> Cell
    ensures { result ≡ spec.cell_of (formula_of expr.now) }
{
    match expr {
        Expr::Zero => Cell::Constant(false),
        Expr::One => Cell::Constant(true),
        Expr::Wire(a) => Cell::Wire(*a),
        Expr::Not(x) => match &**x {
            Expr::Wire(a) => Cell::Not(*a),
            _ => Cell::Other,
        },
        Expr::And(x, y) => match (&**x, &**y) {
            (Expr::Wire(a), Expr::Wire(b)) => Cell::And(*a, *b),
            _ => Cell::Other,
        },
        Expr::Or(x, y) => match (&**x, &**y) {
            (Expr::Wire(a), Expr::Wire(b)) => Cell::Or(*a, *b),
            _ => Cell::Other,
        },
        Expr::Xor(x, y) => match (&**x, &**y) {
            (Expr::Wire(a), Expr::Wire(b)) => Cell::Xor(*a, *b),
            _ => Cell::Other,
        },
        Expr::Mux { select, low, high } => match (&**select, &**low, &**high) {
            (Expr::Wire(s), Expr::Wire(a), Expr::Wire(b)) => Cell::Mux(*s, *a, *b),
            _ => Cell::Other,
        },
    }
}

/// What a register with this next expression stores.
pub(crate) fn next_of(next: &Expr) -> Next
    ensures { result ≡ spec.next_of (formula_of next.now) }
{
    match next {
        Expr::Wire(d) => Next::Wire(*d),
        Expr::Mux {
            select,
            low: _,
            high,
        } => match (&**select, &**high) {
            (Expr::Wire(e), Expr::Wire(d)) => Next::Enabled(*e, *d),
            _ => Next::Other,
        },
        _ => Next::Other,
    }
}
