//! Forms, and what is connected to pins.

ghost use Rattle.std.specs.Prelude.{◌≡◌, ◌++◌, OnOk, map, option_map};
ghost use Rattle.std.specs.List.{flat_map};
ghost use Rattle.verilog_reader.specs.Plain.{forms_of};
ghost use Rattle.verilog_reader.specs.View.{form_view, pin_view};
ghost use Rattle.design_text.specs.Parts.{parts_text};
ghost use Rattle.design_text.specs.Written as spec;

use crate::names::{constant, name, number};
use agm_bits::{Memory, Name};
use std::alloc::Global;
use verilog_reader::{Connection, Form};

// `x[3]`
fn bit(alloc: Global, text: &mut Name, x: &Name, k: u32) -> Result<(), Memory>
    ensures { OnOk result (text.new ≡ text.old ++ parts_text (spec.bit_parts x.now k)) }
{
    name(text, x.as_slice())?;
    text.extend(b"[")?;
    number(alloc, text, k)?;
    text.extend(b"]")
}

// `x[3:0]`
fn part(alloc: Global, text: &mut Name, x: &Name, high: u32, low: u32) -> Result<(), Memory>
    ensures { OnOk result (text.new ≡ text.old ++ parts_text (spec.part_parts x.now high low)) }
{
    name(text, x.as_slice())?;
    text.extend(b"[")?;
    number(alloc, text, high)?;
    text.extend(b":")?;
    number(alloc, text, low)?;
    text.extend(b"]")
}

/// A form.
pub(crate) fn form(alloc: Global, text: &mut Name, shape: &Form) -> Result<(), Memory>
    ensures { OnOk result (text.new ≡ text.old ++ parts_text (spec.form_parts (form_view shape.now))) }
{
    match shape {
        Form::Whole(x) => name(text, x.as_slice()),
        Form::Bit(x, k) => bit(alloc, text, x, *k),
        Form::Part(x, high, low) => part(alloc, text, x, *high, *low),
        Form::Constant(bits) => constant(alloc, text, bits.as_slice()),
        Form::Join(inside) => {
            text.extend(b"{")?;
            if let [first, rest @ ..] = inside.as_slice() {
                form(alloc, text, first)?;
                for next in rest {
                    text.extend(b", ")?;
                    form(alloc, text, next)?;
                }
            }
            text.extend(b"}")
        }
        Form::Repeat(times, inside) => {
            text.extend(b"{")?;
            number(alloc, text, *times)?;
            text.extend(b"{")?;
            form(alloc, text, inside)?;
            text.extend(b"}}")
        }
    }
}

// What a pin has.
fn content(alloc: Global, text: &mut Name, content: &Option<Form>) -> Result<(), Memory>
    ensures { OnOk result (text.new ≡ text.old ++ parts_text (spec.content_parts (option_map form_view content.now))) }
{
    match content {
        Some(inside) => form(alloc, text, inside),
        None => Ok(()),
    }
}

// `.pin(form)`
fn pin(alloc: Global, text: &mut Name, pin: &Connection) -> Result<(), Memory>
    ensures { OnOk result (text.new ≡ text.old ++ parts_text (spec.pin_parts (pin_view pin.now))) }
{
    text.extend(b".")?;
    name(text, pin.pin.as_slice())?;
    text.extend(b"(")?;
    content(alloc, text, &pin.form)?;
    text.extend(b")")
}

// Connections, each behind a comma.
fn more_pins(alloc: Global, text: &mut Name, pins: &[Connection]) -> Result<(), Memory>
    ensures { OnOk result (text.new ≡ text.old ++ parts_text (flat_map spec.next_pin (map pin_view pins.now))) }
{
    for next in pins {
        text.extend(b", ")?;
        pin(alloc, text, next)?;
    }
    Ok(())
}

/// Connections with commas between them.
pub(crate) fn pins(alloc: Global, text: &mut Name, pins: &[Connection]) -> Result<(), Memory>
    ensures { OnOk result (text.new ≡ text.old ++ parts_text (spec.pins_parts (map pin_view pins.now))) }
{
    match pins {
        [first, rest @ ..] => {
            pin(alloc, text, first)?;
            more_pins(alloc, text, rest)
        }
        [] => Ok(()),
    }
}
