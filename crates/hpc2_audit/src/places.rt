//! Where wires stand in lists.

ghost use Rattle.std.specs.Prelude.{◌≡◌, ◌<◌, ◌++◌, ℕ, IfOk, OnOk, length, slice_set};
ghost use Rattle.std.specs.List.{flat_map};
ghost use Rattle.hpc2_audit.specs.Places.{ArePlaces, place_at};

use agm_bits::{List, Memory};
use agm_net::Port;
use std::alloc::Global;

/// Where a wire stands in a list.
#[derive(Clone, Copy, Debug, PartialEq, Eq)]
pub(crate) enum Place {
    Nowhere,
    /// At this place.
    At(usize),
}

// Notes the place of a wire, if it is one.
fn note(places: &mut [Place], wire: usize, place: usize)
    ensures { places.new ≡ slice_set places.old wire (Place.At place) }
{
    if wire < places.len() {
        places[wire] = Place::At(place);
    }
}

// Notes the places of the wires of a list, where none is noted before.
fn note_all(places: &mut [Place], wires: &[usize])
    requires { (w : ℕ) → w < length places.old → place_at places.old w ≡ Place.Nowhere }
    ensures { ArePlaces wires.now (length places.old) places.new }
{
    for (place, wire) in wires.iter().enumerate() {
        note(places, *wire, place);
    }
}

/// Where each of so many wires stands in a list.
pub(crate) fn places_in(alloc: Global, count: usize, wires: &[usize]) -> Result<List<Place>, Memory>
    ensures { IfOk result (ArePlaces wires.now count) }
{
    let mut places = vec![in alloc; Place::Nowhere; count]?;
    note_all(places.as_mut_slice(), wires);
    Ok(List::from_vec(places))
}

/// Adds the bits of ports.
pub(crate) fn add_bits(bits: &mut List<usize>, ports: &[Port]) -> Result<(), Memory>
    ensures { OnOk result (bits.new ≡ bits.old ++ flat_map (λ p. p.bits) ports.now) }
{
    for port in ports {
        bits.extend(port.bits.as_slice())?;
    }
    Ok(())
}
