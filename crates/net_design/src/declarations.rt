//! Declarations of ports and wires.

ghost use Rattle.std.specs.Prelude.{◌≡◌, ◌∷◌, [], IfOk};
ghost use Rattle.net_design.specs.Design as spec;
ghost use Rattle.verilog_reader.specs.Plain.{declare};
ghost use Rattle.verilog_reader.specs.View.{item_view};

use agm_bits::{List, Memory, Name};
use agm_net::{Port, Range, Way};
use std::alloc::Global;
use verilog_reader::{Attribute, Item, Value};

// The mark of a clock.
fn clock_attribute(alloc: Global) -> Result<Attribute, Memory>
    ensures { IfOk result (λ a. a ≡ spec.clock_attribute) }
{
    let name = Name::from_slice(alloc, b"AGEMA")?;
    let value = Some(Value::Text(Name::from_slice(alloc, b"clock")?));
    Ok(Attribute { name, value })
}

// The marks of a port: the clock's where it is the clock's.
fn marks(alloc: Global, clock: Option<usize>, number: usize) -> Result<List<Attribute>, Memory>
    ensures { IfOk result (λ marks. marks ≡ spec.mark_at clock number) }
{
    let mut marks = List::new(alloc);
    match clock {
        Some(c) if c == number => {
            marks.push(clock_attribute(alloc)?)?;
            Ok(marks)
        }
        _ => Ok(marks),
    }
}

// The declaration of one name.
fn declaration(
    alloc: Global,
    attributes: List<Attribute>,
    way: Option<Way>,
    range: Option<Range>,
    name: &Name,
) -> Result<Item, Memory>
    ensures { IfOk result (λ i. item_view i ≡ declare attributes way range (name.now ∷ [])) }
{
    let mut names = List::new(alloc);
    names.push(Name::from_slice(alloc, name.as_slice())?)?;
    Ok(Item::Declare {
        attributes,
        way,
        range,
        names,
    })
}

/// The declaration of a port, from its number.
pub(crate) fn port_item(
    alloc: Global,
    clock: Option<usize>,
    number: usize,
    port: &Port,
) -> Result<Item, Memory>
    ensures { IfOk result (λ i. item_view i ≡ spec.port_item clock (number, port.now)) }
{
    let marks = marks(alloc, clock, number)?;
    declaration(alloc, marks, Some(port.way), port.range, &port.name)
}

/// The declaration of a wire.
pub(crate) fn wire_item(alloc: Global, name: &Name) -> Result<Item, Memory>
    ensures { IfOk result (λ i. item_view i ≡ spec.wire_item name.now) }
{
    declaration(alloc, List::new(alloc), None, None, name)
}
