ghost use Rattle.std.specs.Prelude.{◌≡◌, ◌++◌, ◌∷◌, [], map, min, ℕ, IfOk, Some, None};
ghost use Rattle.std.specs.Option.{option_map};
ghost use Rattle.verilog_reader.specs.View.{pin_view};
ghost use Rattle.form_bits.specs.Forms as forms;
ghost use Rattle.bound_items.specs.Items as spec;
ghost use Rattle.bound_items.specs.State.{Checks};

use crate::BindFault;
use crate::add::dotted;
use crate::assign::{bits_of, check_form};
use agm_bits::{List, Memory, Name};
use agm_net::Range;
use form_bits::{Bit, Scope, Spot};
use name_table::Names;
use std::alloc::Global;
use verilog_reader::Connection;

/// How many bits a name with a range has, or one without.
pub(crate) fn range_width(range: Option<Range>) -> usize
    ensures { result ≡ forms.range_width range }
{
    match range {
        None => 1,
        Some(r) => r.msb.abs_diff(r.lsb) as usize + 1,
    }
}

/// The spot of a name.
pub(crate) fn look(scope: &Scope, name: &Name) -> Option<Spot>
    ensures { result ≡ forms.look_in scope.now.names scope.now.spots name.now }
{
    match scope.names.find(name.as_slice()) {
        Some(number) => scope.spots.as_slice().get(number).copied(),
        None => None,
    }
}

// Checks the form of a connection at a pin with a spot.
fn check_pin_form(
    alloc: Global,
    scope: &Scope,
    spot: Spot,
    connection: &Connection,
) -> Result<(), BindFault>
    ensures { Checks (spec.pin_form_broken (forms.look_in scope.now.names scope.now.spots) spot (pin_view connection.now).form) result }
{
    match &connection.form {
        Some(form) => check_form(alloc, scope, range_width(spot.range), form),
        None => Ok(()),
    }
}

// Checks a connection at a pin with a spot behind others, and adds the pin to theirs.
fn check_spot(
    alloc: Global,
    instance: &Name,
    scope: &Scope,
    earlier: Names,
    spot: Spot,
    connection: &Connection,
) -> Result<Names, BindFault>
    ensures checks { Checks (spec.pin_broken instance.now (Some spot) (forms.look_in scope.now.names scope.now.spots) earlier (pin_view connection.now)) result }
    ensures added { IfOk result (λ t. t ≡ earlier ++ (pin_view connection.now).pin ∷ []) }
{
    let mut earlier = earlier;
    if !earlier.add(connection.pin.as_slice())?.is_new {
        let name = dotted(alloc, instance, &connection.pin)?;
        return Err(BindFault::Clash { name });
    }
    check_pin_form(alloc, scope, spot, connection)?;
    Ok(earlier)
}

// The fault of a pin that is not there.
fn unknown_pin(alloc: Global, instance: &Name, pin: &Name) -> Result<BindFault, Memory>
    ensures { IfOk result (λ f. f ≡ spec.unknown_pin instance.now pin.now) }
{
    let instance = Name::from_slice(alloc, instance.as_slice())?;
    let pin = Name::from_slice(alloc, pin.as_slice())?;
    Ok(BindFault::UnknownPin { instance, pin })
}

// Checks a connection of an instance of what has these pins behind others, and adds its pin to theirs.
fn check_pin(
    alloc: Global,
    instance: &Name,
    face: &Scope,
    scope: &Scope,
    earlier: Names,
    connection: &Connection,
) -> Result<Names, BindFault>
    ensures checks { Checks (spec.pin_broken instance.now (forms.look_in face.now.names face.now.spots (pin_view connection.now).pin) (forms.look_in scope.now.names scope.now.spots) earlier (pin_view connection.now)) result }
    ensures added { IfOk result (λ t. t ≡ earlier ++ (pin_view connection.now).pin ∷ []) }
{
    match look(face, &connection.pin) {
        Some(spot) => check_spot(alloc, instance, scope, earlier, spot, connection),
        None => Err(unknown_pin(alloc, instance, &connection.pin)?),
    }
}

/// Checks the connections of an instance of what has these pins. The table has their pins.
pub(crate) fn check_pins(
    alloc: Global,
    instance: &Name,
    face: &Scope,
    scope: &Scope,
    pins: &[Connection],
) -> Result<Names, BindFault>
    ensures checks { Checks (spec.pins_broken instance.now (forms.look_in face.now.names face.now.spots) (forms.look_in scope.now.names scope.now.spots) [] (map pin_view pins.now)) result }
    ensures table { IfOk result (λ t. t ≡ map spec.pin_of (map pin_view pins.now)) }
{
    let mut earlier = Names::new(alloc);
    for connection in pins {
        earlier = check_pin(alloc, instance, face, scope, earlier, connection)?;
    }
    Ok(earlier)
}
