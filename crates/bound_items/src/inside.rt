ghost use Rattle.std.specs.Prelude.{◌≡◌, ◌++◌, map, length, slice_get, get_or, IfOk, Some};
ghost use Rattle.std.specs.List.{flat_map, list_any};
ghost use Rattle.std.specs.Option.{option_map};
ghost use Rattle.agm_net.specs.declared.port.Way.TheVariants.{Input, Output};
ghost use Rattle.verilog_reader.specs.View.{pin_view, module_view};
ghost use Rattle.module_outlines.specs.Outlines.{module_ports, port_way};
ghost use Rattle.module_outlines.specs.View.{Outlines};
ghost use Rattle.form_bits.specs.Forms as forms;
ghost use Rattle.bound_items.specs.Items as spec;
ghost use Rattle.bound_items.specs.State.{state_of, after, Gives};

use crate::add::{add_pin, add_plain, dotted};
use crate::connect::{check_pins, range_width};
use crate::connected::{connected, form_bits};
use crate::{BindFault, Netlist, Wires};
use agm_bits::{List, Memory, Name};
use agm_net::Way;
use form_bits::{Bit, Spot};
use module_outlines::Outline;
use name_table::Names;
use std::alloc::Global;
use verilog_reader::{Connection, Module};

/// A module with its outline.
#[derive(Clone, Copy)]
pub struct Outlined<'d> {
    pub module: &'d Module,
    pub outline: &'d Outline,
}

// So many wires in a row.
fn wires_from(alloc: Global, start: usize, width: usize) -> Result<List<Bit>, Memory>
    ensures { IfOk result (λ bits. bits ≡ forms.run start width) }
{
    let Some(end) = start.checked_add(width) else {
        return Err(Memory);
    };
    let mut bits = List::new(alloc);
    for wire in start..end {
        bits.push(Bit::Wire(wire))?;
    }
    Ok(bits)
}

// The wires of a spot in a module whose wires stand from n on.
fn spot_run(alloc: Global, n: usize, spot: Spot) -> Result<List<Bit>, Memory>
    ensures { IfOk result (λ bits. bits ≡ spec.spot_run n spot) }
{
    match n.checked_add(spot.first) {
        Some(start) => wires_from(alloc, start, range_width(spot.range)),
        None => Err(Memory),
    }
}

// The way at a place; an input past the end.
fn way_at(ways: &[Way], number: usize) -> Way
    ensures { result ≡ get_or ways.now number Input }
{
    if number < ways.len() {
        ways[number]
    } else {
        Way::Input
    }
}

// The way and spot at a place where there is a spot.
fn port_in(ways: &[Way], spots: &[Spot], number: usize) -> Option<(Way, Spot)>
    ensures { result ≡ option_map (λ s. (get_or ways.now number Input, s)) (slice_get spots.now number) }
{
    match spots.get(number) {
        Some(spot) => Some((way_at(ways, number), *spot)),
        None => None,
    }
}

// The way and spot of a port.
fn port_at(inside: Outlined<'_>, name: &Name) -> Option<(Way, Spot)>
    requires { Outlines (module_view inside.module.now) inside.outline.now }
    ensures { result ≡ option_map (λ s. (port_way (module_view inside.entry.module.now) name.now, s)) (module_ports (module_view inside.entry.module.now) name.now) }
{
    let outline = inside.outline;
    match outline.ports.names.find(name.as_slice()) {
        Some(number) => port_in(
            outline.ways.as_slice(),
            outline.ports.spots.as_slice(),
            number,
        ),
        None => None,
    }
}

// Adds the equations of what is connected to an input port with a spot, in a module whose wires stand from n on.
fn add_in_at(
    netlist: Netlist,
    n: usize,
    spot: Spot,
    bits: Option<List<Bit>>,
) -> Result<Netlist, Memory>
    ensures { IfOk result (λ t. state_of t ≡ after (state_of netlist) (spec.in_lines_at Input n (Some spot) bits)) }
{
    match bits {
        Some(bits) => {
            let run = spot_run(netlist.alloc, n, spot)?;
            add_plain(netlist, run.as_slice(), bits.as_slice())
        }
        None => Ok(netlist),
    }
}

// Adds the equations of what is connected to an output port with a spot.
fn add_out_at(
    netlist: Netlist,
    n: usize,
    spot: Spot,
    bits: Option<List<Bit>>,
) -> Result<Netlist, Memory>
    ensures { IfOk result (λ t. state_of t ≡ after (state_of netlist) (spec.out_lines_at Output n (Some spot) bits)) }
{
    match bits {
        Some(bits) => {
            let run = spot_run(netlist.alloc, n, spot)?;
            add_plain(netlist, bits.as_slice(), run.as_slice())
        }
        None => Ok(netlist),
    }
}

// Adds the equations of a connection of an input port.
fn add_in(
    netlist: Netlist,
    inside: Outlined<'_>,
    n: usize,
    wires: Wires<'_>,
    connection: &Connection,
) -> Result<Netlist, Memory>
    requires { Outlines (module_view inside.module.now) inside.outline.now }
    ensures { IfOk result (λ t. state_of t ≡ after (state_of netlist) (spec.in_lines (module_view inside.entry.module.now) n (forms.look_in wires.entry.scope.now.names wires.entry.scope.now.spots) wires.entry.base (pin_view connection.now))) }
{
    match port_at(inside, &connection.pin) {
        Some((Way::Input, spot)) => {
            let bits = form_bits(netlist.alloc, wires.scope, wires.base, connection)?;
            add_in_at(netlist, n, spot, bits)
        }
        Some((Way::Output, _)) => Ok(netlist),
        None => Ok(netlist),
    }
}

// Adds the equations of a connection of an output port.
fn add_out(
    netlist: Netlist,
    inside: Outlined<'_>,
    n: usize,
    wires: Wires<'_>,
    connection: &Connection,
) -> Result<Netlist, Memory>
    requires { Outlines (module_view inside.module.now) inside.outline.now }
    ensures { IfOk result (λ t. state_of t ≡ after (state_of netlist) (spec.out_lines (module_view inside.entry.module.now) n (forms.look_in wires.entry.scope.now.names wires.entry.scope.now.spots) wires.entry.base (pin_view connection.now))) }
{
    match port_at(inside, &connection.pin) {
        Some((Way::Output, spot)) => {
            let bits = form_bits(netlist.alloc, wires.scope, wires.base, connection)?;
            add_out_at(netlist, n, spot, bits)
        }
        Some((Way::Input, _)) => Ok(netlist),
        None => Ok(netlist),
    }
}

// Adds the equations of the connections of input ports.
fn add_ins(
    netlist: Netlist,
    inside: Outlined<'_>,
    n: usize,
    wires: Wires<'_>,
) -> Result<Netlist, Memory>
    requires { Outlines (module_view inside.module.now) inside.outline.now }
    ensures { IfOk result (λ t. state_of t ≡ after (state_of netlist) (flat_map (spec.in_lines (module_view inside.entry.module.now) n (forms.look_in wires.entry.scope.now.names wires.entry.scope.now.spots) wires.entry.base) (map pin_view wires.entry.pins.now))) }
{
    let mut netlist = netlist;
    for connection in wires.pins {
        netlist = add_in(netlist, inside, n, wires, connection)?;
    }
    Ok(netlist)
}

fn is_constant(bit: Bit) -> bool
    ensures { result ≡ spec.is_constant bit }
{
    match bit {
        Bit::Constant(_) => true,
        Bit::Wire(_) => false,
    }
}

fn has_constant(bits: &[Bit]) -> bool
    ensures { result ≡ list_any spec.is_constant bits.now }
{
    bits.iter().any(|bit| is_constant(*bit))
}

// Adds an output port as a pin, where a constant stands at it.
fn add_constant(
    netlist: Netlist,
    instance: &Name,
    port: &Name,
    bits: Option<List<Bit>>,
) -> Result<Netlist, Memory>
    ensures { IfOk result (λ t. state_of t ≡ after (state_of netlist) (spec.constant_counts (spec.dotted instance.now port.now) bits)) }
{
    match bits {
        Some(bits) => {
            if has_constant(bits.as_slice()) {
                let name = dotted(netlist.alloc, instance, port)?;
                Ok(add_pin(netlist, name, 2))
            } else {
                Ok(netlist)
            }
        }
        None => Ok(netlist),
    }
}

// Adds a port as a pin, where it is an output at which a constant stands.
fn add_port(
    netlist: Netlist,
    instance: &Name,
    way: Way,
    port: &Name,
    wires: Wires<'_>,
    table: &Names,
) -> Result<Netlist, Memory>
    requires { table.now ≡ map spec.pin_of (map pin_view wires.pins.now) }
    ensures { IfOk result (λ t. state_of t ≡ after (state_of netlist) (spec.way_counts way (spec.dotted instance.now port.now) (spec.connected (map pin_view wires.entry.pins.now) (forms.look_in wires.entry.scope.now.names wires.entry.scope.now.spots) wires.entry.base port.now))) }
{
    match way {
        Way::Input => Ok(netlist),
        Way::Output => {
            let bits = connected(netlist.alloc, wires, table, port)?;
            add_constant(netlist, instance, port, bits)
        }
    }
}

// Adds the output ports at which constants stand. The table has the pins of the connections.
fn add_ports(
    netlist: Netlist,
    instance: &Name,
    inside: Outlined<'_>,
    wires: Wires<'_>,
    table: &Names,
) -> Result<Netlist, Memory>
    requires outlined { Outlines (module_view inside.module.now) inside.outline.now }
    requires table { table.now ≡ map spec.pin_of (map pin_view wires.pins.now) }
    ensures { IfOk result (λ t. state_of t ≡ after (state_of netlist) (flat_map (spec.port_counts instance.now (module_view inside.entry.module.now) (forms.look_in wires.entry.scope.now.names wires.entry.scope.now.spots) wires.entry.base (map pin_view wires.entry.pins.now)) inside.entry.module.now.ports)) }
{
    let ways = inside.outline.ways.as_slice();
    let ports = inside.module.ports.as_slice();
    let mut netlist = netlist;
    for k in 0..ports.len() {
        let way = way_at(ways, k);
        netlist = add_port(netlist, instance, way, &ports[k], wires, table)?;
    }
    Ok(netlist)
}

// Adds what an instance that breaks no rule gives before the walk inside it.
fn add_checked(
    netlist: Netlist,
    instance: &Name,
    inside: Outlined<'_>,
    wires: Wires<'_>,
    table: &Names,
) -> Result<Netlist, Memory>
    requires outlined { Outlines (module_view inside.module.now) inside.outline.now }
    requires table { table.now ≡ map spec.pin_of (map pin_view wires.pins.now) }
    ensures { IfOk result (λ t. state_of t ≡ after (state_of netlist) (flat_map (spec.in_lines (module_view inside.entry.module.now) (length (state_of netlist).names) (forms.look_in wires.entry.scope.now.names wires.entry.scope.now.spots) wires.entry.base) (map pin_view wires.entry.pins.now) ++ flat_map (spec.port_counts instance.now (module_view inside.entry.module.now) (forms.look_in wires.entry.scope.now.names wires.entry.scope.now.spots) wires.entry.base (map pin_view wires.entry.pins.now)) inside.entry.module.now.ports)) }
{
    let n = netlist.wires.len();
    let netlist = add_ins(netlist, inside, n, wires)?;
    add_ports(netlist, instance, inside, wires, table)
}

/// Adds what an instance of a module gives before the walk inside it.
///
/// # Errors
///
/// The first rule that its connections break, and `Memory` where memory runs out.
pub fn add_before(
    netlist: Netlist,
    instance: &Name,
    inside: Outlined<'_>,
    wires: Wires<'_>,
) -> Result<Netlist, BindFault>
    requires { Outlines (module_view inside.module.now) inside.outline.now }
    ensures { Gives (state_of netlist) (spec.before_events instance.now (module_view inside.entry.module.now) (forms.look_in wires.entry.scope.now.names wires.entry.scope.now.spots) wires.entry.base (length (state_of netlist).names) (map pin_view wires.entry.pins.now)) result }
{
    let table = check_pins(
        netlist.alloc,
        instance,
        &inside.outline.ports,
        wires.scope,
        wires.pins,
    )?;
    Ok(add_checked(netlist, instance, inside, wires, &table)?)
}

/// Adds what an instance of a module whose wires stand from n on gives behind the walk inside it.
///
/// # Errors
///
/// `Memory` where memory runs out.
pub fn add_behind(
    netlist: Netlist,
    inside: Outlined<'_>,
    n: usize,
    wires: Wires<'_>,
) -> Result<Netlist, Memory>
    requires { Outlines (module_view inside.module.now) inside.outline.now }
    ensures { IfOk result (λ t. state_of t ≡ after (state_of netlist) (flat_map (spec.out_lines (module_view inside.entry.module.now) n (forms.look_in wires.entry.scope.now.names wires.entry.scope.now.spots) wires.entry.base) (map pin_view wires.entry.pins.now))) }
{
    let mut netlist = netlist;
    for connection in wires.pins {
        netlist = add_out(netlist, inside, n, wires, connection)?;
    }
    Ok(netlist)
}
