ghost use Rattle.std.specs.Prelude.{◌≡◌, [], None, true, IfOk, map};
ghost use Rattle.agm_net.specs.Formula.{formula_of};
ghost use Rattle.cell_library.specs.Judged as spec;
ghost use Rattle.cell_library.specs.Known.{look_in, names_in, raw_unknown};
ghost use Rattle.cell_library.specs.Spelled.{cell_of, function_in, pin_of, state_of};
ghost use Rattle.cell_library.specs.View as view;

use crate::cause::{group_cause, has_unknown, pin_cause};
use crate::raw::{RawCell, RawFlip, RawPin, Said};
use crate::scope::{Scope, expr, input_number, pin_table};
use crate::types::{Bar, Cell, Pin, State};
use agm_bits::{List, Memory, Name};
use agm_net::{Expr, Way};
use name_table::Names;
use std::alloc::Global;

// A barred cell.
fn barred(alloc: Global, name: Name, bar: Bar) -> Cell
    ensures { cell_of result ≡ spec.barred_cell name bar }
{
    Cell {
        name,
        pins: List::new(alloc),
        state: None,
        barred: Some(bar),
    }
}

// A function over the wires of a cell.
fn function(alloc: Global, scope: &Scope<'_>, said: &Option<Said>) -> Result<Option<Expr>, Memory>
    requires { scope.now.table ≡ names_in scope.now.pins.now }
    ensures { IfOk result (λ o. function_in o ≡ spec.plain_function (look_in scope.now.pins.now scope.now.states.now) (view.said_in said.now)) }
{
    match said {
        Some(Said::Function(function)) => Ok(Some(expr(alloc, scope, function)?)),
        _ => Ok(None),
    }
}

fn way_or_input(way: Option<Way>) -> Way
    ensures { result ≡ spec.way_or_input way }
{
    match way {
        Some(way) => way,
        None => Way::Input,
    }
}

// A pin with its function over the wires.
fn pin(alloc: Global, scope: &Scope<'_>, pin: &RawPin) -> Result<Pin, Memory>
    requires { scope.now.table ≡ names_in scope.now.pins.now }
    ensures { IfOk result (λ p. pin_of p ≡ spec.plain_pin (look_in scope.now.pins.now scope.now.states.now) (view.raw_pin pin.now)) }
{
    let name = Name::from_slice(alloc, pin.name.as_slice())?;
    let function = function(alloc, scope, &pin.function)?;
    let way = way_or_input(pin.way);
    Ok(Pin {
        name,
        way,
        function,
    })
}

// The pins of a cell.
fn pins(alloc: Global, scope: &Scope<'_>, raw: &[RawPin]) -> Result<List<Pin>, Memory>
    requires { scope.now.table ≡ names_in scope.now.pins.now }
    ensures { IfOk result (λ ps. map pin_of ps ≡ map (spec.plain_pin (look_in scope.now.pins.now scope.now.states.now)) (map view.raw_pin raw.now)) }
{
    let mut pins = List::new(alloc);
    for next in raw {
        pins.push(pin(alloc, scope, next)?)?;
    }
    Ok(pins)
}

// The number of the clock's pin.
fn clock(scope: &Scope<'_>, clocked_on: &Option<Name>) -> usize
    requires { scope.now.table ≡ names_in scope.now.pins.now }
    ensures { result ≡ spec.clock_number (map view.raw_pin scope.now.pins.now) clocked_on.now }
{
    match clocked_on {
        Some(name) => match input_number(&scope.table, scope.pins, name.as_slice()) {
            Some(number) => number,
            None => 0,
        },
        None => 0,
    }
}

// The first of a flip-flop's names.
fn first_name(alloc: Global, names: &[Name]) -> Result<Name, Memory>
    ensures { IfOk result (λ n. n ≡ spec.first_name names.now) }
{
    match names {
        [name, ..] => Name::from_slice(alloc, name.as_slice()),
        [] => Ok(Name::new(alloc)),
    }
}

fn or_zero(next: Option<Expr>) -> Expr
    ensures { formula_of result ≡ spec.or_zero (function_in next) }
{
    match next {
        Some(next) => next,
        None => Expr::Zero,
    }
}

// The state of a cell.
fn state(alloc: Global, scope: &Scope<'_>, flips: &[RawFlip]) -> Result<Option<State>, Memory>
    requires { scope.now.table ≡ names_in scope.now.pins.now }
    ensures { IfOk result (λ o. state_of o ≡ spec.plain_state (look_in scope.now.pins.now scope.now.states.now) (map view.raw_pin scope.now.pins.now) (map view.raw_flip flips.now)) }
{
    match flips {
        [flip, ..] => {
            let next = or_zero(function(alloc, scope, &flip.next)?);
            let name = first_name(alloc, flip.names.as_slice())?;
            let clock = clock(scope, &flip.clocked_on);
            Ok(Some(State { name, clock, next }))
        }
        [] => Ok(None),
    }
}

// The names of the first flip-flop's state.
fn states(flips: &[RawFlip]) -> &[Name]
    ensures { result.now ≡ spec.states_of (map view.raw_flip flips.now) }
{
    match flips {
        [flip, ..] => flip.names.as_slice(),
        [] => &[],
    }
}

// A cell whose pins have different names and which no other cause bars but names in its functions.
fn known(alloc: Global, name: Name, scope: &Scope<'_>, raw: &RawCell) -> Result<Cell, Memory>
    requires tied { scope.now.table ≡ names_in scope.now.pins.now }
    requires pins { scope.now.pins.now ≡ raw.now.pins }
    ensures { IfOk result (λ c. cell_of c ≡ spec.known_cell name (look_in scope.now.pins.now scope.now.states.now) (map view.raw_pin raw.now.pins) (map view.raw_flip raw.now.flips) (raw_unknown (look_in scope.now.pins.now scope.now.states.now) raw.now.pins raw.now.flips)) }
{
    if has_unknown(scope, raw.pins.as_slice(), raw.flips.as_slice()) {
        return Ok(barred(alloc, name, Bar::UnknownName));
    }
    let pins = pins(alloc, scope, raw.pins.as_slice())?;
    let state = state(alloc, scope, raw.flips.as_slice())?;
    Ok(Cell {
        name,
        pins,
        state,
        barred: None,
    })
}

// A cell whose groups give no cause, and whose pins have the different names of the table.
fn with_table(alloc: Global, name: Name, raw: &RawCell, table: Names) -> Result<Cell, Memory>
    requires groups { spec.first_cause (spec.group_causes (view.raw_cell raw.now)) ≡ None }
    requires differ { spec.all_new [] (names_in raw.now.pins) ≡ true }
    requires tied { table ≡ names_in raw.now.pins }
    ensures { IfOk result (λ c. cell_of c ≡ spec.judged name (view.raw_cell raw.now)) }
{
    let pins = raw.pins.as_slice();
    let flips = raw.flips.as_slice();
    match pin_cause(&table, pins, flips) {
        Some(bar) => Ok(barred(alloc, name, bar)),
        None => {
            let states = states(flips);
            let scope = Scope {
                table,
                pins,
                states,
            };
            known(alloc, name, &scope, raw)
        }
    }
}

// A cell whose groups give no cause.
fn with_pins(alloc: Global, name: Name, raw: &RawCell) -> Result<Cell, Memory>
    requires { spec.first_cause (spec.group_causes (view.raw_cell raw.now)) ≡ None }
    ensures { IfOk result (λ c. cell_of c ≡ spec.judged name (view.raw_cell raw.now)) }
{
    match pin_table(alloc, raw.pins.as_slice())? {
        Some(table) => with_table(alloc, name, raw, table),
        None => Ok(barred(alloc, name, Bar::DoublePin)),
    }
}

/// The cell that a name and what its group says make.
pub(crate) fn cell(alloc: Global, name: Name, raw: &RawCell) -> Result<Cell, Memory>
    ensures { IfOk result (λ c. cell_of c ≡ spec.judged name (view.raw_cell raw.now)) }
{
    match group_cause(raw) {
        Some(bar) => Ok(barred(alloc, name, bar)),
        None => with_pins(alloc, name, raw),
    }
}
