ghost use Rattle.std.specs.Prelude.{◌≡◌, ◌++◌, ◌∷◌, [], not, ℕ, IfOk, MatchOption, Some, map, true, false, length, slice_get};
ghost use Rattle.std.specs.Option.{option_map};
ghost use Rattle.agm_net.specs.Formula.{formula_of, f_not, f_and, f_or, f_xor};
ghost use Rattle.cell_function.specs.Tree.{tree_of};
ghost use Rattle.cell_library.specs.Judged as spec;
ghost use Rattle.cell_library.specs.Known.{known_of, look_in, names_in};
ghost use Rattle.cell_library.specs.View as view;

use crate::raw::RawPin;
use agm_bits::{Memory, Name};
use agm_net::{Expr, Way, not_of};
use cell_function::Function;
use name_table::Names;
use std::alloc::Global;

/// Adds a name to a table, and says whether it was new.
pub(crate) fn add(table: &mut Names, name: &Name) -> Result<bool, Memory>
    ensures { IfOk result (λ b. (b ≡ not (spec.is_among table.old name.now)) × (b ≡ true → table.new ≡ table.old ++ name.now ∷ [])) }
{
    let place = table.add(name.as_slice())?;
    Ok(place.is_new)
}

/// A table of the names of pins, None where two are the same.
pub(crate) fn pin_table(alloc: Global, pins: &[RawPin]) -> Result<Option<Names>, Memory>
    ensures { IfOk result (λ o. MatchOption o (spec.all_new [] (names_in pins.now) ≡ false) (λ t. (spec.all_new [] (names_in pins.now) ≡ true) × (t ≡ names_in pins.now))) }
{
    let mut table = Names::new(alloc);
    for pin in pins {
        if !add(&mut table, &pin.name)? {
            return Ok(None);
        }
    }
    Ok(Some(table))
}

// A pin's number, if it is an input pin.
fn input_of(pin: &RawPin, number: usize) -> Option<usize>
    ensures { result ≡ spec.input_at (Some (view.raw_pin pin.now)) number }
{
    match pin.way {
        Some(Way::Input) => Some(number),
        _ => None,
    }
}

fn input_at(pins: &[RawPin], number: usize) -> Option<usize>
    ensures { result ≡ spec.input_at (slice_get (map view.raw_pin pins.now) number) number }
{
    match pins.get(number) {
        Some(pin) => input_of(pin, number),
        None => None,
    }
}

/// The number of the input pin of a name. The table has the names of the pins.
pub(crate) fn input_number(table: &Names, pins: &[RawPin], name: &[u8]) -> Option<usize>
    requires { table.now ≡ names_in pins.now }
    ensures { result ≡ spec.input_number (map view.raw_pin pins.now) name.now }
{
    match table.find(name) {
        Some(number) => input_at(pins, number),
        None => None,
    }
}

/// What a name stands for in a function of a cell.
#[derive(Clone, Copy)]
pub(crate) enum Known {
    /// The input pin of this number.
    Input(usize),
    State,
    /// The inverse of the state.
    Inverse,
}

/// The names that the functions of a cell may have: those of its pins, also as a table, and those of its state and of
/// the state's inverse.
#[derive(Drop)]
pub(crate) struct Scope<'c> {
    pub(crate) table: Names,
    pub(crate) pins: &'c [RawPin],
    pub(crate) states: &'c [Name],
}

// What the second of the state's names stands for.
fn inverse_known(names: &[Name], name: &[u8]) -> Option<Known>
    ensures { (wire : ℕ) → option_map (known_of wire) result ≡ spec.second_formula wire names.now name.now }
{
    match names {
        [inverse, ..] if inverse.as_slice() == name => Some(Known::Inverse),
        _ => None,
    }
}

// What the state's names stand for.
fn state_known(names: &[Name], name: &[u8]) -> Option<Known>
    ensures { (wire : ℕ) → option_map (known_of wire) result ≡ spec.state_formula wire names.now name.now }
{
    match names {
        [state, rest @ ..] => {
            if state.as_slice() == name {
                Some(Known::State)
            } else {
                inverse_known(rest, name)
            }
        }
        [] => None,
    }
}

/// What a name stands for: an input pin before the state.
pub(crate) fn find(scope: &Scope<'_>, name: &[u8]) -> Option<Known>
    requires { scope.now.table ≡ names_in scope.now.pins.now }
    ensures { option_map (known_of (length scope.now.pins.now)) result ≡ look_in scope.now.pins.now scope.now.states.now name.now }
{
    match input_number(&scope.table, scope.pins, name) {
        Some(number) => Some(Known::Input(number)),
        None => state_known(scope.states, name),
    }
}

/// Whether each name of a function stands for something.
pub(crate) fn knows(scope: &Scope<'_>, function: &Function) -> bool
    requires { scope.now.table ≡ names_in scope.now.pins.now }
    ensures { result ≡ spec.is_known (look_in scope.now.pins.now scope.now.states.now) (tree_of function.now) }
{
    match function {
        Function::Constant(_) => true,
        Function::Pin(name) => find(scope, name.as_slice()).is_some(),
        Function::Not(x) => knows(scope, x),
        Function::And(x, y) | Function::Or(x, y) | Function::Xor(x, y) => {
            knows(scope, x) && knows(scope, y)
        }
    }
}

// The expression of what a name stands for, and 0 where it stands for nothing.
fn leaf(alloc: Global, wire: usize, known: Option<Known>) -> Result<Expr, Memory>
    ensures { IfOk result (λ e. formula_of e ≡ spec.or_zero (option_map (known_of wire) known)) }
{
    match known {
        Some(Known::Input(number)) => Ok(Expr::Wire(number)),
        Some(Known::State) => Ok(Expr::Wire(wire)),
        Some(Known::Inverse) => not_of(alloc, wire),
        None => Ok(Expr::Zero),
    }
}

fn inverted(alloc: Global, x: Expr) -> Result<Expr, Memory>
    ensures { IfOk result (λ e. formula_of e ≡ f_not (formula_of x)) }
{
    Ok(Expr::Not(Box::new(alloc, x)?))
}

fn both(alloc: Global, x: Expr, y: Expr) -> Result<Expr, Memory>
    ensures { IfOk result (λ e. formula_of e ≡ f_and (formula_of x) (formula_of y)) }
{
    Ok(Expr::And(Box::new(alloc, x)?, Box::new(alloc, y)?))
}

fn either(alloc: Global, x: Expr, y: Expr) -> Result<Expr, Memory>
    ensures { IfOk result (λ e. formula_of e ≡ f_or (formula_of x) (formula_of y)) }
{
    Ok(Expr::Or(Box::new(alloc, x)?, Box::new(alloc, y)?))
}

fn one_of(alloc: Global, x: Expr, y: Expr) -> Result<Expr, Memory>
    ensures { IfOk result (λ e. formula_of e ≡ f_xor (formula_of x) (formula_of y)) }
{
    Ok(Expr::Xor(Box::new(alloc, x)?, Box::new(alloc, y)?))
}

/// A function over the wires of a cell.
pub(crate) fn expr(alloc: Global, scope: &Scope<'_>, function: &Function) -> Result<Expr, Memory>
    requires { scope.now.table ≡ names_in scope.now.pins.now }
    ensures { IfOk result (λ e. formula_of e ≡ spec.formula (look_in scope.now.pins.now scope.now.states.now) (tree_of function.now)) }
{
    match function {
        Function::Constant(false) => Ok(Expr::Zero),
        Function::Constant(true) => Ok(Expr::One),
        Function::Pin(name) => leaf(alloc, scope.pins.len(), find(scope, name.as_slice())),
        Function::Not(x) => inverted(alloc, expr(alloc, scope, x)?),
        Function::And(x, y) => {
            let x = expr(alloc, scope, x)?;
            let y = expr(alloc, scope, y)?;
            both(alloc, x, y)
        }
        Function::Or(x, y) => {
            let x = expr(alloc, scope, x)?;
            let y = expr(alloc, scope, y)?;
            either(alloc, x, y)
        }
        Function::Xor(x, y) => {
            let x = expr(alloc, scope, x)?;
            let y = expr(alloc, scope, y)?;
            one_of(alloc, x, y)
        }
    }
}
