//! Declarations, assigns and instances.

ghost use Rattle.std.specs.Prelude.{◌≡◌, ◌++◌, OnOk, map};
ghost use Rattle.verilog_reader.specs.View.{form_view, item_view, pin_view};
ghost use Rattle.verilog_reader.specs.Plain.{assign, declare, instance};
ghost use Rattle.design_text.specs.Parts.{parts_text};
ghost use Rattle.design_text.specs.Written as spec;

use crate::forms::{form, pins};
use crate::names::{constant, name, names, number};
use agm_bits::{List, Memory, Name};
use agm_net::{Range, Way};
use std::alloc::Global;
use verilog_reader::{Attribute, Connection, Form, Item, Value};

// The value of an attribute.
fn value(alloc: Global, text: &mut Name, value: &Value) -> Result<(), Memory>
    ensures { OnOk result (text.new ≡ text.old ++ parts_text (spec.value_parts value.now)) }
{
    match value {
        Value::Text(string) => {
            text.extend(b"\"")?;
            text.extend(string.as_slice())?;
            text.extend(b"\"")
        }
        Value::Number(n) => {
            let digits = format!(in alloc; "{n}")?;
            text.extend(digits.as_bytes())
        }
        Value::Bits(bits) => constant(alloc, text, bits.as_slice()),
    }
}

// `(* name = value *) `
fn attribute(alloc: Global, text: &mut Name, attribute: &Attribute) -> Result<(), Memory>
    ensures { OnOk result (text.new ≡ text.old ++ parts_text (spec.attribute_parts attribute.now)) }
{
    text.extend(b"(* ")?;
    name(text, attribute.name.as_slice())?;
    if let Some(set) = &attribute.value {
        text.extend(b" = ")?;
        value(alloc, text, set)?;
    }
    text.extend(b" *) ")
}

/// Attributes, one block each.
pub(crate) fn attributes(
    alloc: Global,
    text: &mut Name,
    attributes: &[Attribute],
) -> Result<(), Memory>
    ensures { OnOk result (text.new ≡ text.old ++ parts_text (spec.attributes_parts attributes.now)) }
{
    for next in attributes {
        attribute(alloc, text, next)?;
    }
    Ok(())
}

// `input` or `output`.
fn port_way(text: &mut Name, way: Way) -> Result<(), Memory>
    ensures { OnOk result (text.new ≡ text.old ++ parts_text (spec.port_way_parts way)) }
{
    match way {
        Way::Input => text.extend(b"input "),
        Way::Output => text.extend(b"output "),
    }
}

// `input`, `output` or `wire`.
fn way(text: &mut Name, way: Option<Way>) -> Result<(), Memory>
    ensures { OnOk result (text.new ≡ text.old ++ parts_text (spec.way_parts way)) }
{
    match way {
        Some(way) => port_way(text, way),
        None => text.extend(b"wire "),
    }
}

// A range, where there is one.
fn range(alloc: Global, text: &mut Name, range: Option<Range>) -> Result<(), Memory>
    ensures { OnOk result (text.new ≡ text.old ++ parts_text (spec.range_parts range)) }
{
    match range {
        Some(r) => {
            text.extend(b"[")?;
            number(alloc, text, r.msb)?;
            text.extend(b":")?;
            number(alloc, text, r.lsb)?;
            text.extend(b"] ")
        }
        None => Ok(()),
    }
}

// A declaration behind its attributes.
fn declared(
    alloc: Global,
    text: &mut Name,
    kind: Option<Way>,
    bits: Option<Range>,
    declared: &List<Name>,
) -> Result<(), Memory>
    ensures { OnOk result (text.new ≡ text.old ++ parts_text (spec.declared_parts kind bits declared.now)) }
{
    way(text, kind)?;
    range(alloc, text, bits)?;
    names(text, declared.as_slice())?;
    text.extend(b";")
}

// An assign behind its attributes.
fn assigned(alloc: Global, text: &mut Name, left: &Form, right: &Form) -> Result<(), Memory>
    ensures { OnOk result (text.new ≡ text.old ++ parts_text (spec.assigned_parts (form_view left.now) (form_view right.now))) }
{
    text.extend(b"assign ")?;
    form(alloc, text, left)?;
    text.extend(b" = ")?;
    form(alloc, text, right)?;
    text.extend(b";")
}

// An instance behind its attributes.
fn placed(
    alloc: Global,
    text: &mut Name,
    cell: &Name,
    instance: &Name,
    connections: &List<Connection>,
) -> Result<(), Memory>
    ensures { OnOk result (text.new ≡ text.old ++ parts_text (spec.placed_parts cell.now instance.now (map pin_view connections.now))) }
{
    name(text, cell.as_slice())?;
    text.extend(b" ")?;
    name(text, instance.as_slice())?;
    text.extend(b" (")?;
    pins(alloc, text, connections.as_slice())?;
    text.extend(b");")
}

/// Appends the line of a declaration, an assign or an instance.
pub fn item_text(alloc: Global, text: &mut Name, item: &Item) -> Result<(), Memory>
    ensures { OnOk result (text.new ≡ text.old ++ parts_text (spec.item_parts (item_view item.now))) }
{
    text.extend(b"\n  ")?;
    match item {
        Item::Declare {
            attributes: before,
            way,
            range,
            names,
        } => {
            attributes(alloc, text, before.as_slice())?;
            declared(alloc, text, *way, *range, names)
        }
        Item::Assign {
            attributes: before,
            left,
            right,
        } => {
            attributes(alloc, text, before.as_slice())?;
            assigned(alloc, text, left, right)
        }
        Item::Instance {
            attributes: before,
            cell,
            name,
            pins,
        } => {
            attributes(alloc, text, before.as_slice())?;
            placed(alloc, text, cell, name, pins)
        }
    }
}
