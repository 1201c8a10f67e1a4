ghost use Rattle.std.specs.Prelude.{◌≡◌, ◌++◌, ◌∷◌, [], map, length, IfOk};
ghost use Rattle.std.specs.List.{range_with_len};
ghost use Rattle.verilog_reader.specs.View.{pin_view};
ghost use Rattle.cell_library.specs.Spelled.{cell_of};
ghost use Rattle.cell_faces.specs.Cells.{pin_name, pin_spot};
ghost use Rattle.form_bits.specs.Forms as forms;
ghost use Rattle.bound_items.specs.Items as spec;
ghost use Rattle.bound_items.specs.State.{state_of, after, Gives};

use crate::connect::check_pins;
use crate::connected::pin_bits;
use crate::counts::add_pins;
use crate::outputs::add_outputs;
use crate::register::{add_register, add_state_wire, state_bit};
use crate::site::Site;
use crate::{BindFault, Netlist, Wires};
use agm_bits::{List, Memory, Name};
use cell_library::Cell;
use form_bits::{Bit, Scope};
use name_table::Names;
use std::alloc::Global;
use verilog_reader::Connection;

// The bits, and then that of the state.
fn with_state(
    alloc: Global,
    bits: &[Option<Bit>],
    state: Option<Bit>,
) -> Result<List<Option<Bit>>, Memory>
    ensures { IfOk result (λ l. l ≡ bits.now ++ state ∷ []) }
{
    let mut operands = List::from_slice(alloc, bits)?;
    operands.push(state)?;
    Ok(operands)
}

// Adds what an instance of a cell gives behind the wire of its state.
fn add_site(
    netlist: Netlist,
    site: Site<'_>,
    face: &Scope,
    pins: &[Connection],
) -> Result<Netlist, Memory>
    requires { face.now.names ≡ map pin_name (cell_of site.cell.now).pins }
    ensures { IfOk result (λ n. state_of n ≡ after (state_of netlist) (spec.state_events site.entry.instance.now (cell_of site.entry.cell.now) (map pin_view pins.now) site.entry.bits.now site.entry.state)) }
{
    let operands = with_state(netlist.alloc, site.bits, site.state)?;
    let netlist = add_outputs(netlist, site, operands.as_slice(), face, pins)?;
    let netlist = add_register(netlist, site, operands.as_slice())?;
    add_pins(netlist, site)
}

// Adds what an instance of a cell gives at these bits.
fn add_at_bits(
    netlist: Netlist,
    site: Site<'_>,
    face: &Scope,
    pins: &[Connection],
) -> Result<Netlist, BindFault>
    requires { face.now.names ≡ map pin_name (cell_of site.cell.now).pins }
    ensures { Gives (state_of netlist) (spec.state_wires site.entry.instance.now (cell_of site.entry.cell.now) (cell_of site.entry.cell.now).state ++ spec.state_events site.entry.instance.now (cell_of site.entry.cell.now) (map pin_view pins.now) site.entry.bits.now site.entry.state) result }
{
    match add_state_wire(netlist, site.instance, site.cell) {
        Ok(netlist) => Ok(add_site(netlist, site, face, pins)?),
        Err(fault) => Err(fault),
    }
}

// Adds what an instance of a cell gives whose connections break no rule. The table has their pins.
fn add_checked(
    netlist: Netlist,
    instance: &Name,
    cell: &Cell,
    face: &Scope,
    wires: Wires<'_>,
    table: &Names,
) -> Result<Netlist, BindFault>
    requires names { face.now.names ≡ map pin_name (cell_of cell.now).pins }
    requires table { table.now ≡ map spec.pin_of (map pin_view wires.pins.now) }
    ensures { Gives (state_of netlist) (spec.state_wires instance.now (cell_of cell.now) (cell_of cell.now).state ++ spec.state_events instance.now (cell_of cell.now) (map pin_view wires.entry.pins.now) (spec.pin_bits (cell_of cell.now) (map pin_view wires.entry.pins.now) (forms.look_in wires.entry.scope.now.names wires.entry.scope.now.spots) wires.entry.base) (spec.state_bit (cell_of cell.now) (spec.pin_bits (cell_of cell.now) (map pin_view wires.entry.pins.now) (forms.look_in wires.entry.scope.now.names wires.entry.scope.now.spots) wires.entry.base) (length (state_of netlist).names) (cell_of cell.now).state)) result }
{
    let bits = pin_bits(netlist.alloc, cell.pins.as_slice(), wires, table)?;
    let state = state_bit(cell, bits.as_slice(), netlist.wires.len());
    let site = Site {
        instance,
        cell,
        bits: bits.as_slice(),
        state,
    };
    add_at_bits(netlist, site, face, wires.pins)
}

/// Adds what an instance of a cell that is not barred gives. The face has the cell's pins.
///
/// # Errors
///
/// The first rule that it breaks, and `Memory` where memory runs out.
pub fn add_cell(
    netlist: Netlist,
    instance: &Name,
    cell: &Cell,
    face: &Scope,
    wires: Wires<'_>,
) -> Result<Netlist, BindFault>
    requires names { face.now.names ≡ map pin_name (cell_of cell.now).pins }
    requires spots { face.now.spots ≡ map pin_spot (range_with_len 0 (length (cell_of cell.now).pins)) }
    ensures { Gives (state_of netlist) (spec.cell_events instance.now (cell_of cell.now) (forms.look_in wires.entry.scope.now.names wires.entry.scope.now.spots) wires.entry.base (length (state_of netlist).names) (map pin_view wires.entry.pins.now)) result }
{
    match check_pins(netlist.alloc, instance, face, wires.scope, wires.pins) {
        Ok(table) => add_checked(netlist, instance, cell, face, wires, &table),
        Err(fault) => Err(fault),
    }
}
