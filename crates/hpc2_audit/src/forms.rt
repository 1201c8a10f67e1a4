//! The form of what drives a wire.

ghost use Rattle.std.specs.Prelude.{◌≡◌};
ghost use Rattle.agm_net.specs.Formula.{formula_of as formula};
ghost use Rattle.hpc2_audit.specs.Recipes as spec;

use crate::drivers::Driven;
use agm_net::Expr;

/// The form of what drives a wire.
#[derive(Clone, Copy, Debug, PartialEq, Eq)]
pub(crate) enum Form {
    Other,
    /// It is set to this wire.
    Copied(usize),
    Inverted(usize),
    /// It is set to the and of these wires.
    Both(usize, usize),
    /// It is set to their exclusive or.
    Differ(usize, usize),
    /// It stores this wire.
    Kept(usize),
}

// The wire that an expression is.
fn wire_in(expr: &Expr) -> Option<usize>
    ensures { result ≡ spec.wire_in (formula expr.now) }
{
    match expr {
        Expr::Wire(wire) => Some(*wire),
        _ => None,
    }
}

// The form of an inversion.
fn inverted(x: &Expr) -> Form
    ensures { result ≡ spec.over_one Form.Inverted (spec.wire_in (formula x.now)) }
{
    match wire_in(x) {
        Some(wire) => Form::Inverted(wire),
        None => Form::Other,
    }
}

// The form of an and.
fn both(x: &Expr, y: &Expr) -> Form
    ensures { result ≡ spec.over_two Form.Both (spec.wire_in (formula x.now)) (spec.wire_in (formula y.now)) }
{
    match wire_in(x) {
        Some(first) => match wire_in(y) {
            Some(second) => Form::Both(first, second),
            None => Form::Other,
        },
        None => Form::Other,
    }
}

// The form of an exclusive or.
fn differ(x: &Expr, y: &Expr) -> Form
    ensures { result ≡ spec.over_two Form.Differ (spec.wire_in (formula x.now)) (spec.wire_in (formula y.now)) }
{
    match wire_in(x) {
        Some(first) => match wire_in(y) {
            Some(second) => Form::Differ(first, second),
            None => Form::Other,
        },
        None => Form::Other,
    }
}

// The form of an equation.
fn line_form(expr: &Expr) -> Form
    ensures { result ≡ spec.form (formula expr.now) }
{
    match expr {
        Expr::Wire(wire) => Form::Copied(*wire),
        Expr::Not(x) => inverted(x),
        Expr::And(x, y) => both(x, y),
        Expr::Xor(x, y) => differ(x, y),
        _ => Form::Other,
    }
}

// The form of what a register stores.
fn next_form(next: &Expr) -> Form
    ensures { result ≡ spec.over_one Form.Kept (spec.wire_in (formula next.now)) }
{
    match wire_in(next) {
        Some(wire) => Form::Kept(wire),
        None => Form::Other,
    }
}

/// The form of what drives a wire.
pub(crate) fn form_of(driven: Driven<'_>) -> Form
    ensures { result ≡ spec.form_of driven.entry }
{
    match driven {
        Driven::Line(expr) => line_form(expr),
        Driven::Flop(register) => next_form(&register.next),
        Driven::Bit | Driven::Clocked => Form::Other,
    }
}
