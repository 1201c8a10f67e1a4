ghost use Rattle.std.specs.Prelude.{◌≡◌, map, IfOk, slice_index_or, None, Some, length};
ghost use Rattle.verilog_reader.specs.View.{pin_view};
ghost use Rattle.cell_library.specs.Spelled.{pin_of};
ghost use Rattle.form_bits.specs.Forms as forms;
ghost use Rattle.bound_items.specs.Items as spec;

use crate::assign::bits_of;
use agm_bits::{List, Memory, Name};
use cell_library::Pin;
use form_bits::{Bit, Scope};
use name_table::Names;
use std::alloc::Global;
use verilog_reader::Connection;

/// The connections of an instance with the names in their forms, in a module whose wires stand from `base` on.
#[derive(Clone, Copy)]
pub struct Wires<'d> {
    pub pins: &'d [Connection],
    pub scope: &'d Scope,
    pub base: usize,
}

/// The bits of a connection, where it is not empty.
pub(crate) fn form_bits(
    alloc: Global,
    scope: &Scope,
    base: usize,
    connection: &Connection,
) -> Result<Option<List<Bit>>, Memory>
    ensures { IfOk result (λ o. o ≡ spec.connected_form (pin_view connection.now).form (forms.look_in scope.now.names scope.now.spots) base) }
{
    match &connection.form {
        Some(form) => Ok(Some(bits_of(alloc, scope, base, form)?)),
        None => Ok(None),
    }
}

/// The bits that are connected to the pin of a name, where some are. The table has the pins of the connections.
pub(crate) fn connected(
    alloc: Global,
    wires: Wires<'_>,
    table: &Names,
    name: &Name,
) -> Result<Option<List<Bit>>, Memory>
    requires { table.now ≡ map spec.pin_of (map pin_view wires.pins.now) }
    ensures { IfOk result (λ o. o ≡ spec.connected (map pin_view wires.entry.pins.now) (forms.look_in wires.entry.scope.now.names wires.entry.scope.now.spots) wires.entry.base name.now) }
{
    match table.find(name.as_slice()) {
        Some(number) => match wires.pins.get(number) {
            Some(connection) => form_bits(alloc, wires.scope, wires.base, connection),
            None => Ok(None),
        },
        None => Ok(None),
    }
}

// The first of some bits.
fn first_bit(bits: &Option<List<Bit>>) -> Option<Bit>
    ensures { result ≡ spec.first_bit bits.now }
{
    match bits {
        Some(bits) => match bits.as_slice() {
            [bit, ..] => Some(*bit),
            [] => None,
        },
        None => None,
    }
}

/// The bit at each pin of a cell, where one is connected.
pub(crate) fn pin_bits(
    alloc: Global,
    pins: &[Pin],
    wires: Wires<'_>,
    table: &Names,
) -> Result<List<Option<Bit>>, Memory>
    requires { table.now ≡ map spec.pin_of (map pin_view wires.pins.now) }
    ensures { IfOk result (λ bits. bits ≡ map (λ p. spec.first_bit (spec.connected (map pin_view wires.entry.pins.now) (forms.look_in wires.entry.scope.now.names wires.entry.scope.now.spots) wires.entry.base p.name)) (map pin_of pins.now)) }
{
    let mut bits = List::new(alloc);
    for pin in pins {
        let at = connected(alloc, wires, table, &pin.name)?;
        bits.push(first_bit(&at))?;
    }
    Ok(bits)
}
