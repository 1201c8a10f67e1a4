ghost use Rattle.std.specs.Prelude.{◌≡◌, ◌||◌, ◌&&◌, not, map};
ghost use Rattle.std.specs.Option.{is_some};
ghost use Rattle.cell_library.specs.Judged as spec;
ghost use Rattle.cell_library.specs.Known.{any_pin, any_flip, look_in, names_in, raw_causes, raw_unknown};
ghost use Rattle.cell_library.specs.View as view;

use crate::raw::{RawCell, RawFlip, RawPin, Said};
use crate::scope::{Scope, input_number, knows};
use crate::types::Bar;
use agm_net::Way;
use name_table::Names;

// Whether a cell has at most one flip-flop, and that one two names.
fn is_alone(flips: &[RawFlip]) -> bool
    ensures { result ≡ spec.is_alone (map view.raw_flip flips.now) }
{
    match flips {
        [] => true,
        [flip] => flip.names.len() == 2,
        _ => false,
    }
}

/// The first cause that the groups of a cell give.
pub(crate) fn group_cause(cell: &RawCell) -> Option<Bar>
    ensures { result ≡ spec.first_cause (spec.group_causes (view.raw_cell cell.now)) }
{
    if cell.kinds.has_bus {
        Some(Bar::Bus)
    } else if cell.kinds.has_latch {
        Some(Bar::Latch)
    } else if cell.kinds.has_table {
        Some(Bar::StateTable)
    } else if cell.kinds.has_bank {
        Some(Bar::Bank)
    } else if !is_alone(cell.flips.as_slice()) {
        Some(Bar::TwoStates)
    } else {
        None
    }
}

// Whether a clock is an input pin.
fn has_clock(table: &Names, pins: &[RawPin], flip: &RawFlip) -> bool
    requires { table.now ≡ names_in pins.now }
    ensures { result ≡ spec.has_clock (map view.raw_pin pins.now) flip.now.clocked_on }
{
    match &flip.clocked_on {
        Some(name) => input_number(table, pins, name.as_slice()).is_some(),
        None => false,
    }
}

// Whether a flip-flop has one clock, which is an input pin.
fn is_clocked(table: &Names, pins: &[RawPin], flip: &RawFlip) -> bool
    requires { table.now ≡ names_in pins.now }
    ensures { result ≡ spec.is_clocked (map view.raw_pin pins.now) (view.raw_flip flip.now) }
{
    !flip.has_second_clock && has_clock(table, pins, flip)
}

// Whether a pin is an output without function.
fn lacks_function(pin: &RawPin) -> bool
    ensures { result ≡ (spec.is_out (view.raw_pin pin.now).way && not (is_some (view.raw_pin pin.now).function)) }
{
    match (pin.way, &pin.function) {
        (Some(Way::Output), None) => true,
        _ => false,
    }
}

// Whether a function text that is there is not read.
fn is_unread(said: &Option<Said>) -> bool
    ensures { result ≡ spec.is_unread (view.said_in said.now) }
{
    match said {
        Some(Said::Nothing) => true,
        _ => false,
    }
}

fn has_pin_without_way(pins: &[RawPin]) -> bool
    ensures { result ≡ any_pin (λ p. not (is_some p.way)) pins.now }
{
    pins.iter().any(|p| p.way.is_none())
}

fn has_three_state(pins: &[RawPin]) -> bool
    ensures { result ≡ any_pin (λ p. p.is_three_state) pins.now }
{
    pins.iter().any(|p| p.is_three_state)
}

fn has_async(flips: &[RawFlip]) -> bool
    ensures { result ≡ any_flip (λ f. f.is_async) flips.now }
{
    flips.iter().any(|f| f.is_async)
}

fn has_unclocked(table: &Names, pins: &[RawPin], flips: &[RawFlip]) -> bool
    requires { table.now ≡ names_in pins.now }
    ensures { result ≡ any_flip (λ f. not (spec.is_clocked (map view.raw_pin pins.now) f)) flips.now }
{
    flips.iter().any(|f| !is_clocked(table, pins, f))
}

fn has_lacking_pin(pins: &[RawPin]) -> bool
    ensures { result ≡ any_pin (λ p. spec.is_out p.way && not (is_some p.function)) pins.now }
{
    pins.iter().any(|p| lacks_function(p))
}

fn has_lacking_flip(flips: &[RawFlip]) -> bool
    ensures { result ≡ any_flip (λ f. not (is_some f.next)) flips.now }
{
    flips.iter().any(|f| f.next.is_none())
}

fn has_unread_pin(pins: &[RawPin]) -> bool
    ensures { result ≡ any_pin (λ p. spec.is_unread p.function) pins.now }
{
    pins.iter().any(|p| is_unread(&p.function))
}

fn has_unread_flip(flips: &[RawFlip]) -> bool
    ensures { result ≡ any_flip (λ f. spec.is_unread f.next) flips.now }
{
    flips.iter().any(|f| is_unread(&f.next))
}

/// The first cause that the pins and the flip-flop give, apart from the names in functions. The table has the names of
/// the pins.
pub(crate) fn pin_cause(table: &Names, pins: &[RawPin], flips: &[RawFlip]) -> Option<Bar>
    requires { table.now ≡ names_in pins.now }
    ensures { result ≡ spec.first_cause (raw_causes pins.now flips.now) }
{
    if has_pin_without_way(pins) {
        Some(Bar::Direction)
    } else if has_three_state(pins) {
        Some(Bar::ThreeState)
    } else if has_async(flips) {
        Some(Bar::AsyncControl)
    } else if has_unclocked(table, pins, flips) {
        Some(Bar::ClockShape)
    } else if has_lacking_pin(pins) || has_lacking_flip(flips) {
        Some(Bar::NoFunction)
    } else if has_unread_pin(pins) || has_unread_flip(flips) {
        Some(Bar::FunctionText)
    } else {
        None
    }
}

// Whether a function names something unknown.
fn is_unknown(scope: &Scope<'_>, said: &Option<Said>) -> bool
    requires { scope.now.table ≡ names_in scope.now.pins.now }
    ensures { result ≡ spec.is_unknown (look_in scope.now.pins.now scope.now.states.now) (view.said_in said.now) }
{
    match said {
        Some(Said::Function(function)) => !knows(scope, function),
        _ => false,
    }
}

fn has_unknown_pin(scope: &Scope<'_>, pins: &[RawPin]) -> bool
    requires { scope.now.table ≡ names_in scope.now.pins.now }
    ensures { result ≡ any_pin (λ p. spec.is_unknown (look_in scope.now.pins.now scope.now.states.now) p.function) pins.now }
{
    pins.iter().any(|p| is_unknown(scope, &p.function))
}

fn has_unknown_flip(scope: &Scope<'_>, flips: &[RawFlip]) -> bool
    requires { scope.now.table ≡ names_in scope.now.pins.now }
    ensures { result ≡ any_flip (λ f. spec.is_unknown (look_in scope.now.pins.now scope.now.states.now) f.next) flips.now }
{
    flips.iter().any(|f| is_unknown(scope, &f.next))
}

/// Whether a function or a next state names something unknown.
pub(crate) fn has_unknown(scope: &Scope<'_>, pins: &[RawPin], flips: &[RawFlip]) -> bool
    requires { scope.now.table ≡ names_in scope.now.pins.now }
    ensures { result ≡ raw_unknown (look_in scope.now.pins.now scope.now.states.now) pins.now flips.now }
{
    has_unknown_pin(scope, pins) || has_unknown_flip(scope, flips)
}
