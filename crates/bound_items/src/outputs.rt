ghost use Rattle.std.specs.Prelude.{◌≡◌, map, slice_get, IfOk, Some};
ghost use Rattle.std.specs.Option.{option_map};
ghost use Rattle.std.specs.List.{flat_map};
ghost use Rattle.verilog_reader.specs.View.{pin_view};
ghost use Rattle.cell_library.specs.Spelled.{cell_of, pin_of};
ghost use Rattle.cell_faces.specs.Cells.{pin_name};
ghost use Rattle.bound_items.specs.Items as spec;
ghost use Rattle.bound_items.specs.State.{state_of, after};

use crate::Netlist;
use crate::add::add_line;
use crate::over::{bit_at, over};
use crate::site::Site;
use agm_bits::Memory;
use agm_net::Way;
use cell_library::Pin;
use form_bits::{Bit, Scope};
use verilog_reader::Connection;

// Adds the equation of a pin at a bit, where it is an output with a function.
fn add_function(
    netlist: Netlist,
    operands: &[Option<Bit>],
    target: Bit,
    pin: &Pin,
) -> Result<Netlist, Memory>
    ensures { IfOk result (λ n. state_of n ≡ after (state_of netlist) (spec.function_lines operands.now (Some target) (spec.pin_function (Some (pin_of pin.now))))) }
{
    match pin.way {
        Way::Input => Ok(netlist),
        Way::Output => match &pin.function {
            Some(function) => {
                let expr = over(netlist.alloc, operands, function)?;
                add_line(netlist, target, expr)
            }
            None => Ok(netlist),
        },
    }
}

// The pin of a number.
fn pin_at(pins: &[Pin], number: usize) -> Option<&Pin>
    ensures { option_map (λ p. p.now) result ≡ slice_get pins.now number }
{
    pins.get(number)
}

// Adds the equation of the pin of a number, where it is a connected output with a function.
fn add_output(
    netlist: Netlist,
    site: Site<'_>,
    operands: &[Option<Bit>],
    number: usize,
) -> Result<Netlist, Memory>
    ensures { IfOk result (λ n. state_of n ≡ after (state_of netlist) (spec.output_lines (cell_of site.entry.cell.now) site.entry.bits.now operands.now (Some number))) }
{
    match bit_at(site.bits, number) {
        Some(target) => match pin_at(site.cell.pins.as_slice(), number) {
            Some(pin) => add_function(netlist, operands, target, pin),
            None => Ok(netlist),
        },
        None => Ok(netlist),
    }
}

// Adds the equation of a connection, where it connects an output.
fn add_connection(
    netlist: Netlist,
    site: Site<'_>,
    operands: &[Option<Bit>],
    face: &Scope,
    connection: &Connection,
) -> Result<Netlist, Memory>
    requires { face.now.names ≡ map pin_name (cell_of site.cell.now).pins }
    ensures { IfOk result (λ n. state_of n ≡ after (state_of netlist) (spec.cell_lines (cell_of site.entry.cell.now) site.entry.bits.now operands.now (pin_view connection.now))) }
{
    match face.names.find(connection.pin.as_slice()) {
        Some(number) => add_output(netlist, site, operands, number),
        None => Ok(netlist),
    }
}

/// Adds the equations of the connections that connect outputs. The face has the cell's pins.
pub(crate) fn add_outputs(
    netlist: Netlist,
    site: Site<'_>,
    operands: &[Option<Bit>],
    face: &Scope,
    pins: &[Connection],
) -> Result<Netlist, Memory>
    requires { face.now.names ≡ map pin_name (cell_of site.cell.now).pins }
    ensures { IfOk result (λ n. state_of n ≡ after (state_of netlist) (flat_map (spec.cell_lines (cell_of site.entry.cell.now) site.entry.bits.now operands.now) (map pin_view pins.now))) }
{
    let mut netlist = netlist;
    for connection in pins {
        netlist = add_connection(netlist, site, operands, face, connection)?;
    }
    Ok(netlist)
}
