ghost use Rattle.std.specs.Prelude.{◌≡◌, ◌++◌, IfOk, OnOk, true, codes};
ghost use Rattle.std.specs.List.{list_all, flat_map};
ghost use Rattle.std.specs.Fmt.{decimal};
ghost use Rattle.small_text.specs.Bytes as kinds;
ghost use Rattle.small_text.specs.Layout as layout;
ghost use Rattle.small_text.specs.Written as spec;
ghost use Rattle.small_text.specs.declared.small.Item.{Item};

use crate::bytes::{is_key, is_letter, is_word};
use crate::{Bit, Declaration, Item, Small, Source};
use agm_bits::{Memory, Name};
use agm_net::{Mark, Range, Way};
use std::alloc::Global;

// Whether a name goes on as a simple identifier may.
fn are_words(bytes: &[u8]) -> bool
    ensures { result ≡ list_all kinds.is_word bytes.now }
{
    bytes.iter().all(|b| is_word(*b))
}

// Whether a name is a simple identifier.
fn is_simple_name(name: &[u8]) -> bool
    ensures { result ≡ layout.is_simple_name name.now }
{
    match name {
        [first, rest @ ..] => is_letter(*first) && (are_words(rest) && !is_key(name)),
        [] => false,
    }
}

// A name, escaped if need be.
fn name(text: &mut Name, name: &[u8]) -> Result<(), Memory>
    ensures { OnOk result (text.new ≡ text.old ++ spec.parts_text (spec.name_parts name.now)) }
{
    if is_simple_name(name) {
        text.extend(name)
    } else {
        text.extend(b"\\")?;
        text.extend(name)?;
        text.extend(b" ")
    }
}

// A number.
fn number(alloc: Global, text: &mut Name, number: u32) -> Result<(), Memory>
    ensures { OnOk result (text.new ≡ text.old ++ decimal number) }
{
    let digits = format!(in alloc; "{number}")?;
    text.extend(digits.as_bytes())
}

// A select, where there is one.
fn select(alloc: Global, text: &mut Name, index: Option<u32>) -> Result<(), Memory>
    ensures { OnOk result (text.new ≡ text.old ++ spec.parts_text (spec.select_parts index)) }
{
    match index {
        Some(k) => {
            text.extend(b"[")?;
            number(alloc, text, k)?;
            text.extend(b"]")
        }
        None => Ok(()),
    }
}

// A name, with a select or without.
fn bit(alloc: Global, text: &mut Name, bit: &Bit) -> Result<(), Memory>
    ensures { OnOk result (text.new ≡ text.old ++ spec.parts_text (spec.bit_parts bit.now)) }
{
    name(text, bit.name.as_slice())?;
    select(alloc, text, bit.index)
}

// A constant or a bit.
fn source(alloc: Global, text: &mut Name, source: &Source) -> Result<(), Memory>
    ensures { OnOk result (text.new ≡ text.old ++ spec.parts_text (spec.source_parts source.now)) }
{
    match source {
        Source::Bit(from) => bit(alloc, text, from),
        Source::Constant(true) => text.extend(b"1'b1"),
        Source::Constant(false) => text.extend(b"1'b0"),
    }
}

// Names, each behind a comma.
fn more_names(text: &mut Name, names: &[Name]) -> Result<(), Memory>
    ensures { OnOk result (text.new ≡ text.old ++ spec.parts_text (flat_map spec.next_parts names.now)) }
{
    for next in names {
        text.extend(b", ")?;
        name(text, next.as_slice())?;
    }
    Ok(())
}

// Names with commas between them.
fn names(text: &mut Name, names: &[Name]) -> Result<(), Memory>
    ensures { OnOk result (text.new ≡ text.old ++ spec.parts_text (spec.names_parts names.now)) }
{
    match names {
        [first, rest @ ..] => {
            name(text, first.as_slice())?;
            more_names(text, rest)
        }
        [] => Ok(()),
    }
}

// A mark, where there is one.
fn mark(text: &mut Name, mark: Mark) -> Result<(), Memory>
    ensures { OnOk result (text.new ≡ text.old ++ spec.parts_text (spec.mark_parts mark)) }
{
    match mark {
        Mark::Unmarked => Ok(()),
        Mark::Secure => text.extend(b"(* AGEMA = \"secure\" *) "),
        Mark::Public => text.extend(b"(* AGEMA = \"public\" *) "),
        Mark::Clock => text.extend(b"(* AGEMA = \"clock\" *) "),
    }
}

// `input` or `output`.
fn way(text: &mut Name, way: Way) -> Result<(), Memory>
    ensures { OnOk result (text.new ≡ text.old ++ spec.parts_text (spec.way_parts way)) }
{
    match way {
        Way::Input => text.extend(b"input "),
        Way::Output => text.extend(b"output "),
    }
}

// A range, where there is one.
fn range(alloc: Global, text: &mut Name, range: Option<Range>) -> Result<(), Memory>
    ensures { OnOk result (text.new ≡ text.old ++ spec.parts_text (spec.range_parts range)) }
{
    match range {
        Some(r) => {
            text.extend(b"[")?;
            number(alloc, text, r.msb)?;
            text.extend(b":")?;
            number(alloc, text, r.lsb)?;
            text.extend(b"] ")
        }
        None => Ok(()),
    }
}

// A line of a declaration.
fn declaration(alloc: Global, text: &mut Name, declaration: &Declaration) -> Result<(), Memory>
    ensures { OnOk result (text.new ≡ text.old ++ spec.parts_text (spec.declaration_parts declaration.now)) }
{
    match declaration {
        Declaration::Port {
            mark: kind,
            way: direction,
            range: bits,
            name: port,
        } => {
            text.extend(b"\n  ")?;
            mark(text, *kind)?;
            way(text, *direction)?;
            range(alloc, text, *bits)?;
            name(text, port.as_slice())?;
            text.extend(b";")
        }
        Declaration::Wires(wires) => {
            text.extend(b"\n  wire ")?;
            names(text, wires.as_slice())?;
            text.extend(b";")
        }
    }
}

// The lines of declarations.
fn declarations(alloc: Global, text: &mut Name, declarations: &[Declaration]) -> Result<(), Memory>
    ensures { OnOk result (text.new ≡ text.old ++ spec.parts_text (flat_map spec.declaration_parts declarations.now)) }
{
    for next in declarations {
        declaration(alloc, text, next)?;
    }
    Ok(())
}

// `.pin(bit)`.
fn pin(alloc: Global, text: &mut Name, pin: &[u8], wire: &Bit) -> Result<(), Memory>
    requires { layout.is_simple_name pin.now ≡ true }
    ensures { OnOk result (text.new ≡ text.old ++ spec.parts_text (spec.pin_parts pin.now wire.now)) }
{
    text.extend(b".")?;
    text.extend(pin)?;
    text.extend(b"(")?;
    bit(alloc, text, wire)?;
    text.extend(b")")
}

// `, .pin(bit)`.
fn next_pin(alloc: Global, text: &mut Name, name: &[u8], wire: &Bit) -> Result<(), Memory>
    requires { layout.is_simple_name name.now ≡ true }
    ensures { OnOk result (text.new ≡ text.old ++ spec.parts_text (spec.next_pin_parts name.now wire.now)) }
{
    text.extend(b", ")?;
    pin(alloc, text, name, wire)
}

// A line `cell name (`.
fn cell(text: &mut Name, cell: &[u8], instance: &Name) -> Result<(), Memory>
    requires { layout.is_simple_name cell.now ≡ true }
    ensures { OnOk result (text.new ≡ text.old ++ spec.parts_text (spec.cell_parts cell.now instance.now)) }
{
    text.extend(b"\n  ")?;
    text.extend(cell)?;
    text.extend(b" ")?;
    name(text, instance.as_slice())?;
    text.extend(b" (")
}

// An inverter.
fn not(alloc: Global, text: &mut Name, name: &Name, a: &Bit, y: &Bit) -> Result<(), Memory>
    ensures { OnOk result (text.new ≡ text.old ++ spec.parts_text (spec.two_parts (codes "AGM_NOT") name.now (codes "A") a.now (codes "Y") y.now)) }
{
    cell(text, b"AGM_NOT", name)?;
    pin(alloc, text, b"A", a)?;
    next_pin(alloc, text, b"Y", y)?;
    text.extend(b");")
}

// A cell with the inputs A and B and the output Y.
fn gate(
    alloc: Global,
    text: &mut Name,
    kind: &[u8],
    name: &Name,
    a: &Bit,
    b: &Bit,
    y: &Bit,
) -> Result<(), Memory>
    requires { layout.is_simple_name kind.now ≡ true }
    ensures { OnOk result (text.new ≡ text.old ++ spec.parts_text (spec.three_parts kind.now name.now (codes "A") a.now (codes "B") b.now (codes "Y") y.now)) }
{
    cell(text, kind, name)?;
    pin(alloc, text, b"A", a)?;
    next_pin(alloc, text, b"B", b)?;
    next_pin(alloc, text, b"Y", y)?;
    text.extend(b");")
}

// A register.
fn register(
    alloc: Global,
    text: &mut Name,
    name: &Name,
    c: &Bit,
    d: &Bit,
    q: &Bit,
) -> Result<(), Memory>
    ensures { OnOk result (text.new ≡ text.old ++ spec.parts_text (spec.three_parts (codes "AGM_DFF") name.now (codes "C") c.now (codes "D") d.now (codes "Q") q.now)) }
{
    cell(text, b"AGM_DFF", name)?;
    pin(alloc, text, b"C", c)?;
    next_pin(alloc, text, b"D", d)?;
    next_pin(alloc, text, b"Q", q)?;
    text.extend(b");")
}

// A line of an assign.
fn assign(alloc: Global, text: &mut Name, target: &Bit, from: &Source) -> Result<(), Memory>
    ensures { OnOk result (text.new ≡ text.old ++ spec.parts_text (spec.item_parts (Item.Assign target.now from.now))) }
{
    text.extend(b"\n  assign ")?;
    bit(alloc, text, target)?;
    text.extend(b" = ")?;
    source(alloc, text, from)?;
    text.extend(b";")
}

// A line of an assign or an instance.
fn item(alloc: Global, text: &mut Name, item: &Item) -> Result<(), Memory>
    ensures { OnOk result (text.new ≡ text.old ++ spec.parts_text (spec.item_parts item.now)) }
{
    match item {
        Item::Assign { target, source } => assign(alloc, text, target, source),
        Item::Not { name, a, y } => not(alloc, text, name, a, y),
        Item::Xor { name, a, b, y } => gate(alloc, text, b"AGM_XOR2", name, a, b, y),
        Item::And { name, a, b, y } => gate(alloc, text, b"AGM_AND2", name, a, b, y),
        Item::Register { name, c, d, q } => register(alloc, text, name, c, d, q),
    }
}

// The lines of items.
fn items(alloc: Global, text: &mut Name, items: &[Item]) -> Result<(), Memory>
    ensures { OnOk result (text.new ≡ text.old ++ spec.parts_text (flat_map spec.item_parts items.now)) }
{
    for next in items {
        item(alloc, text, next)?;
    }
    Ok(())
}

// `module name(ports);`.
fn head(text: &mut Name, title: &Name, ports: &[Name]) -> Result<(), Memory>
    ensures { OnOk result (text.new ≡ text.old ++ spec.parts_text (spec.head_parts title.now ports.now)) }
{
    text.extend(b"module ")?;
    name(text, title.as_slice())?;
    text.extend(b"(")?;
    names(text, ports)?;
    text.extend(b");")
}

/// The text of a module.
pub(crate) fn print(alloc: Global, small: &Small) -> Result<Name, Memory>
    ensures { IfOk result (λ text. text ≡ spec.parts_text (spec.small_parts small.now)) }
{
    let mut text = Name::new(alloc);
    head(&mut text, &small.name, small.ports.as_slice())?;
    declarations(alloc, &mut text, small.declarations.as_slice())?;
    items(alloc, &mut text, small.items.as_slice())?;
    text.extend(b"\nendmodule\n")?;
    Ok(text)
}
