ghost use Rattle.std.specs.Prelude.{◌≡◌, ◌++◌, map, length, IfOk};
ghost use Rattle.std.specs.List.{range_with_len};
ghost use Rattle.cell_library.specs.Spelled.{cell_of};
ghost use Rattle.verilog_reader.specs.View.{pin_view, item_view};
ghost use Rattle.form_bits.specs.Forms.{look_in};
ghost use Rattle.cell_faces.specs.Cells as cells;
ghost use Rattle.cell_faces.specs.View.{Tables};
ghost use Rattle.bound_items.specs.Items.{cell_events};
ghost use Rattle.bound_items.specs.State.{state_of, Gives};
ghost use Rattle.bound_items.specs.declared.fault.BindFault.TheVariants as faults;
ghost use Rattle.net_binding.specs.Ready.{plain_parts};
ghost use Rattle.net_binding.specs.Rest.{plain_events};
ghost use Rattle.net_binding.specs.Walk.{bar_events, cell_found};

use crate::frame::Frame;
use crate::parts::Parts;
use agm_bits::{Memory, Name};
use bound_items::{BindFault, Netlist, Wires, add_assign, add_cell};
use cell_faces::{Found, find_cell};
use cell_library::Bar;
use form_bits::Scope;
use std::alloc::Global;
use verilog_reader::Item;

/// A name behind a prefix.
pub(crate) fn prefixed(alloc: Global, prefix: &Name, name: &Name) -> Result<Name, Memory>
    ensures { IfOk result (λ t. t ≡ prefix.now ++ name.now) }
{
    let mut text = Name::from_slice(alloc, prefix.as_slice())?;
    text.extend(name.as_slice())?;
    Ok(text)
}

// The fault of a cell that is not there.
fn unknown_cell(alloc: Global, site: &Name, cell: &Name) -> Result<BindFault, Memory>
    ensures { IfOk result (λ f. f ≡ faults.UnknownCell site.now cell.now) }
{
    let instance = Name::from_slice(alloc, site.as_slice())?;
    let cell = Name::from_slice(alloc, cell.as_slice())?;
    Ok(BindFault::UnknownCell { instance, cell })
}

// The fault of a cell that cannot be used.
fn barred_cell(alloc: Global, site: &Name, cell: &Name, cause: Bar) -> Result<BindFault, Memory>
    ensures { IfOk result (λ f. f ≡ faults.BarredCell site.now cell.now cause) }
{
    let instance = Name::from_slice(alloc, site.as_slice())?;
    let cell = Name::from_slice(alloc, cell.as_slice())?;
    Ok(BindFault::BarredCell {
        instance,
        cell,
        cause,
    })
}

// Adds what an instance of a cell that is there gives.
fn add_found(
    netlist: Netlist,
    site: &Name,
    cell: &Name,
    found: Found<'_>,
    wires: Wires<'_>,
) -> Result<Netlist, BindFault>
    requires names { found.face.now.names ≡ map cells.pin_name (cell_of found.cell.now).pins }
    requires spots { found.face.now.spots ≡ map cells.pin_spot (range_with_len 0 (length (cell_of found.cell.now).pins)) }
    ensures { Gives (state_of netlist) (bar_events site.now cell.now (cell_of found.entry.cell.now).barred (cell_events site.now (cell_of found.entry.cell.now) (look_in wires.entry.scope.now.names wires.entry.scope.now.spots) wires.entry.base (length (state_of netlist).names) (map pin_view wires.entry.pins.now))) result }
{
    match found.cell.barred {
        Some(cause) => Err(barred_cell(netlist.alloc, site, cell, cause)?),
        None => add_cell(netlist, site, found.cell, found.face, wires),
    }
}

// Adds what an instance of the cell of a name gives.
fn add_named(
    netlist: Netlist,
    parts: Parts<'_>,
    site: &Name,
    cell: &Name,
    wires: Wires<'_>,
) -> Result<Netlist, BindFault>
    requires { Tables (parts.known.now ++ parts.library.now) parts.cells.now }
    ensures { Gives (state_of netlist) (cell_found site.now cell.now (look_in wires.entry.scope.now.names wires.entry.scope.now.spots) wires.entry.base (length (state_of netlist).names) (map pin_view wires.entry.pins.now) (cells.find_cell (map cell_of (parts.entry.known.now ++ parts.entry.library.now)) cell.now)) result }
{
    match find_cell(parts.cells, parts.known, parts.library, cell) {
        Some(found) => add_found(netlist, site, cell, found, wires),
        None => Err(unknown_cell(netlist.alloc, site, cell)?),
    }
}

/// Adds what an item that is no instance of a module gives.
pub(crate) fn add_plain(
    netlist: Netlist,
    parts: Parts<'_>,
    frame: &Frame,
    scope: &Scope,
    item: &Item,
) -> Result<Netlist, BindFault>
    requires { Tables (parts.known.now ++ parts.library.now) parts.cells.now }
    ensures { Gives (state_of netlist) (plain_events (plain_parts parts.entry.modules.now (parts.entry.known.now ++ parts.entry.library.now)) frame.now.prefix (look_in scope.now.names scope.now.spots) frame.now.base (length (state_of netlist).names) (item_view item.now)) result }
{
    match item {
        Item::Declare { .. } => Ok(netlist),
        Item::Assign { left, right, .. } => add_assign(netlist, scope, frame.base, left, right),
        Item::Instance {
            cell,
            name,
            pins,
            ..
        } => {
            let site = prefixed(netlist.alloc, &frame.prefix, name)?;
            let wires = Wires {
                pins: pins.as_slice(),
                scope,
                base: frame.base,
            };
            add_named(netlist, parts, &site, cell, wires)
        }
    }
}
