ghost use Rattle.std.specs.Prelude.{◌≡◌, ◌∷◌, [], cond, slice_index_or, None, IfOk};
ghost use Rattle.form_bits.specs.Forms.{Text};
ghost use Rattle.cell_library.specs.Spelled.{cell_of, pin_of};
ghost use Rattle.bound_items.specs.Events as event;
ghost use Rattle.bound_items.specs.Items as spec;
ghost use Rattle.bound_items.specs.State.{state_of, after, with_pin};

use crate::Netlist;
use crate::add::{add_pin, dotted};
use crate::over::bit_at;
use crate::reads::{flag_at, is_clock_of, read_pins};
use crate::site::Site;
use agm_bits::{Memory, Name};
use agm_net::Way;
use cell_library::Pin;
use form_bits::Bit;

// Adds a pin of an instance as one that counts as a wire.
fn add_counted(
    netlist: Netlist,
    instance: &Name,
    pin: &Pin,
    drivers: usize,
) -> Result<Netlist, Memory>
    ensures { IfOk result (λ n. state_of n ≡ with_pin (state_of netlist) (spec.dotted instance.now pin.now.name) drivers) }
{
    let name = dotted(netlist.alloc, instance, &pin.name)?;
    Ok(add_pin(netlist, name, drivers))
}

// Whether an input pin that is read or not counts as a wire without driver.
fn is_undriven(site: Site<'_>, is_read: bool, k: usize) -> bool
    ensures { (name : Text) → spec.input_counts is_read (spec.is_clock_of (cell_of site.entry.cell.now).state site.entry.state k) name (slice_index_or site.entry.bits.now k None) ≡ cond result (event.pin name 0 ∷ []) [] }
{
    match bit_at(site.bits, k) {
        None => is_read,
        Some(Bit::Constant(_)) => is_clock_of(site.cell, site.state, k),
        Some(Bit::Wire(_)) => false,
    }
}

// Adds an input pin where it counts as a wire.
fn add_input(
    netlist: Netlist,
    site: Site<'_>,
    is_read: bool,
    k: usize,
    pin: &Pin,
) -> Result<Netlist, Memory>
    ensures { IfOk result (λ n. state_of n ≡ after (state_of netlist) (spec.input_counts is_read (spec.is_clock_of (cell_of site.entry.cell.now).state site.entry.state k) (spec.dotted site.entry.instance.now pin.now.name) (slice_index_or site.entry.bits.now k None))) }
{
    if is_undriven(site, is_read, k) {
        add_counted(netlist, site.instance, pin, 0)
    } else {
        Ok(netlist)
    }
}

// Adds an output pin at a bit where it counts as a wire.
fn add_output(
    netlist: Netlist,
    instance: &Name,
    pin: &Pin,
    bit: Option<Bit>,
) -> Result<Netlist, Memory>
    ensures { IfOk result (λ n. state_of n ≡ after (state_of netlist) (spec.output_counts (spec.dotted instance.now pin.now.name) bit)) }
{
    match bit {
        Some(Bit::Constant(_)) => add_counted(netlist, instance, pin, 2),
        Some(Bit::Wire(_)) => Ok(netlist),
        None => Ok(netlist),
    }
}

// Adds the pin of a number where it counts as a wire.
fn add_one(
    netlist: Netlist,
    site: Site<'_>,
    is_read: bool,
    k: usize,
    pin: &Pin,
) -> Result<Netlist, Memory>
    requires { is_read ≡ spec.is_read (cell_of site.cell.now) site.bits.now site.state k }
    ensures { IfOk result (λ n. state_of n ≡ after (state_of netlist) (spec.pin_counts site.entry.instance.now (cell_of site.entry.cell.now) site.entry.bits.now site.entry.state k (pin_of pin.now))) }
{
    match pin.way {
        Way::Input => add_input(netlist, site, is_read, k, pin),
        Way::Output => add_output(netlist, site.instance, pin, bit_at(site.bits, k)),
    }
}

/// Adds the pins that count as wires.
pub(crate) fn add_pins(netlist: Netlist, site: Site<'_>) -> Result<Netlist, Memory>
    ensures { IfOk result (λ n. state_of n ≡ after (state_of netlist) (spec.pins_count site.entry.instance.now (cell_of site.entry.cell.now) site.entry.bits.now site.entry.state 0 (cell_of site.entry.cell.now).pins)) }
{
    let mut netlist = netlist;
    let reads = read_pins(netlist.alloc, site.cell, site.bits, site.state)?;
    let pins = site.cell.pins.as_slice();
    for k in 0..pins.len() {
        netlist = add_one(netlist, site, flag_at(reads.as_slice(), k), k, &pins[k])?;
    }
    Ok(netlist)
}
