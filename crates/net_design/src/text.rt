//! The text of a net's design.

ghost use Rattle.std.specs.Prelude.{◌≡◌, ◌<◌, ◌+◌, ◌++◌, ◌∷◌, ◌^◌, [], IfOk, OnOk, codes, length, map};
ghost use Rattle.std.specs.List.{enumerate_from, flat_map};
ghost use Rattle.agm_net.specs.Plain.{line_of, stored_of};
ghost use Rattle.agm_net.specs.View.{plain_of};
ghost use Rattle.design_text.specs.Parts.{parts_text};
ghost use Rattle.design_text.specs.Written.{design_text, head_parts};
ghost use Rattle.net_design.specs.Design as spec;
ghost use Rattle.net_design.specs.Lines.{lines_text};

use crate::declarations::{port_item, wire_item};
use crate::items::{line_item, register_item};
use crate::names::margin_of;
use crate::sites::{Site, site_at, sites_of};
use agm_bits::{List, Memory, Name};
use agm_net::{Equation, Net, Port, Register};
use design_text::{end_text, head_text, item_text};
use std::alloc::Global;

// The names of ports.
fn port_names(alloc: Global, ports: &[Port]) -> Result<List<Name>, Memory>
    ensures { IfOk result (λ names. names ≡ map spec.port_name ports.now) }
{
    let mut names = List::new(alloc);
    for port in ports {
        let name = Name::from_slice(alloc, port.name.as_slice())?;
        names.push(name)?;
    }
    Ok(names)
}

// Adds the first line.
fn add_head(alloc: Global, text: &mut Name, ports: &[Port]) -> Result<(), Memory>
    ensures { OnOk result (text.new ≡ text.old ++ parts_text (head_parts [] (codes "agm_top") (map spec.port_name ports.now))) }
{
    let name = Name::from_slice(alloc, b"agm_top")?;
    let names = port_names(alloc, ports)?;
    let attributes = List::new(alloc);
    head_text(alloc, text, attributes.as_slice(), &name, names.as_slice())
}

// Adds the lines of ports.
fn add_ports(
    alloc: Global,
    text: &mut Name,
    clock: Option<usize>,
    ports: &[Port],
) -> Result<(), Memory>
    ensures { OnOk result (text.new ≡ text.old ++ lines_text (map (spec.port_item clock) (enumerate_from 0 ports.now))) }
{
    for (number, port) in ports.iter().enumerate() {
        let item = port_item(alloc, clock, number, port)?;
        item_text(alloc, text, &item)?;
    }
    Ok(())
}

// Adds the line of a wire that is no bit of a port.
fn add_own(
    alloc: Global,
    text: &mut Name,
    sites: &[Option<Site>],
    wire: usize,
    name: &Name,
) -> Result<(), Memory>
    ensures { OnOk result (text.new ≡ text.old ++ lines_text (spec.own_item sites.now (wire, name.now))) }
{
    if site_at(sites, wire).is_none() {
        let item = wire_item(alloc, name)?;
        item_text(alloc, text, &item)?;
    }
    Ok(())
}

// Adds the lines of wires that are no bits of ports.
fn add_wires(
    alloc: Global,
    text: &mut Name,
    sites: &[Option<Site>],
    names: &[Name],
) -> Result<(), Memory>
    ensures { OnOk result (text.new ≡ text.old ++ lines_text (flat_map (spec.own_item sites.now) (enumerate_from 0 names.now))) }
{
    for (wire, name) in names.iter().enumerate() {
        add_own(alloc, text, sites, wire, name)?;
    }
    Ok(())
}

// Adds the lines of equations.
fn add_lines(
    alloc: Global,
    text: &mut Name,
    net: &Net,
    sites: &[Option<Site>],
    margin: usize,
    equations: &[Equation],
) -> Result<(), Memory>
    ensures { OnOk result (text.new ≡ text.old ++ lines_text (map (spec.line_item (spec.form_of (plain_of net.now) sites.now) margin) (enumerate_from 0 (map line_of equations.now)))) }
{
    for (number, equation) in equations.iter().enumerate() {
        let item = line_item(alloc, net, sites, margin, number, equation)?;
        item_text(alloc, text, &item)?;
    }
    Ok(())
}

// Adds the lines of registers. The first has this number.
fn add_registers(
    alloc: Global,
    text: &mut Name,
    net: &Net,
    sites: &[Option<Site>],
    margin: usize,
    first: usize,
    registers: &[Register],
) -> Result<(), Memory>
    requires { first + length registers.now < 2 ^ 64 }
    ensures { OnOk result (text.new ≡ text.old ++ lines_text (map (spec.register_item (spec.form_of (plain_of net.now) sites.now) margin) (enumerate_from first (map stored_of registers.now)))) }
{
    for (i, register) in registers.iter().enumerate() {
        let item = register_item(alloc, net, sites, margin, first + i, register)?;
        item_text(alloc, text, &item)?;
    }
    Ok(())
}

// Adds the lines of equations, then those of registers.
fn add_statements(
    alloc: Global,
    text: &mut Name,
    net: &Net,
    sites: &[Option<Site>],
    margin: usize,
) -> Result<(), Memory>
    ensures added { OnOk result (text.new ≡ text.old ++ lines_text (spec.statements (plain_of net.now) sites.now margin)) }
    ensures short { OnOk result (length net.now.equations + length net.now.registers < 2 ^ 64) }
{
    let first = net.equations.len();
    let registers = net.registers.as_slice();
    first.checked_add(registers.len()).ok_or(Memory)?;
    add_lines(alloc, text, net, sites, margin, net.equations.as_slice())?;
    add_registers(alloc, text, net, sites, margin, first, registers)
}

// Adds the lines of ports, then those of wires that are no bits of ports.
fn add_declarations(
    alloc: Global,
    text: &mut Name,
    net: &Net,
    sites: &[Option<Site>],
) -> Result<(), Memory>
    ensures { OnOk result (text.new ≡ text.old ++ lines_text (spec.declarations (plain_of net.now) sites.now)) }
{
    add_ports(alloc, text, net.clock, net.ports.as_slice())?;
    add_wires(alloc, text, sites, net.wires.as_slice())
}

/// The text of a net's design, for people to read: a declaration, an assign or an instance a line. It is made item by item.
///
/// # Errors
///
/// `Memory` where memory runs out, or there are 2^64 equations and registers.
pub fn net_text(alloc: Global, net: &Net) -> Result<Name, Memory>
    ensures text { IfOk result (λ text. text ≡ design_text (spec.module_of (plain_of net.now) ∷ [])) }
    ensures short { OnOk result (length net.now.equations + length net.now.registers < 2 ^ 64) }
{
    let sites = sites_of(alloc, net)?;
    let margin = margin_of(net);
    let mut text = Name::new(alloc);
    add_head(alloc, &mut text, net.ports.as_slice())?;
    add_declarations(alloc, &mut text, net, sites.as_slice())?;
    add_statements(alloc, &mut text, net, sites.as_slice(), margin)?;
    end_text(&mut text)?;
    Ok(text)
}
