ghost use Rattle.std.specs.Prelude.{◌≡◌, [], ◌∷◌, map};
ghost use Rattle.std.specs.Option.{option_map};
ghost use Rattle.verilog_tokens.specs.Row.{tokens_of};
ghost use Rattle.verilog_reader.specs.Reading as spec;
ghost use Rattle.verilog_reader.specs.View.{form_view, pin_view, item_view};

use crate::attributes::attributes;
use crate::forms::form;
use crate::names::{any_way, names, optional_range};
use crate::stop::Stop;
use crate::terminals::{begins, begins_name, behind_key, goes_on, ident, symbol};
use crate::{Attribute, Connection, Form, Item};
use agm_bits::{List, Name};
use std::alloc::Global;

// How deep braces may nest.
const DEPTH: u32 = 100;

// A form at a pin.
#[tactic(auto, unfolding(crate::specs::Reading::some_form_at))]
fn some_form(alloc: Global, bytes: &[u8]) -> Result<(Option<Form>, &[u8]), Stop>
    ensures { spec.Gives (λ x. (option_map form_view x.0, tokens_of x.1.now)) result (spec.some_form_at (tokens_of bytes.now)) }
{
    let (form, rest) = form(alloc, true, DEPTH, bytes)?;
    Ok((Some(form), rest))
}

// What stands between the parentheses of a pin.
fn content(alloc: Global, bytes: &[u8]) -> Result<(Option<Form>, &[u8]), Stop>
    ensures { spec.Gives (λ x. (option_map form_view x.0, tokens_of x.1.now)) result (spec.content_at (tokens_of bytes.now)) }
{
    if begins(b')', bytes) {
        Ok((None, bytes))
    } else {
        some_form(alloc, bytes)
    }
}

// `. ident ( [ form ] )`.
#[tactic(auto, unfolding(crate::specs::Reading::pin_at))]
fn pin(alloc: Global, bytes: &[u8]) -> Result<(Connection, &[u8]), Stop>
    ensures { spec.Gives (λ x. (pin_view x.0, tokens_of x.1.now)) result (spec.pin_at (tokens_of bytes.now)) }
{
    let rest = symbol(b'.', bytes)?;
    let (pin, rest) = ident(rest)?;
    let rest = symbol(b'(', rest)?;
    let (form, rest) = content(alloc, rest)?;
    let rest = symbol(b')', rest)?;
    let pin = Name::from_slice(alloc, pin)?;
    Ok((Connection { pin, form }, rest))
}

// `, pin`.
#[tactic(auto, unfolding(crate::specs::Reading::next_at))]
fn next_pin(alloc: Global, bytes: &[u8]) -> Result<(Connection, &[u8]), Stop>
    ensures { spec.Gives (λ x. (pin_view x.0, tokens_of x.1.now)) result (spec.next_at spec.pin_at (tokens_of bytes.now)) }
{
    let rest = symbol(b',', bytes)?;
    pin(alloc, rest)
}

// A first pin, and `, pin` as often as it comes.
fn more_pins(
    alloc: Global,
    first: Connection,
    bytes: &[u8],
) -> Result<(List<Connection>, &[u8]), Stop>
    ensures { spec.Gives (λ x. (map pin_view x.0, tokens_of x.1.now)) result (spec.with_front (pin_view first ∷ []) (spec.more_at spec.pin_at (tokens_of bytes.now))) }
{
    let mut pins = List::new(alloc);
    pins.push(first)?;
    let mut rest = bytes;
    for _ in 0..bytes.len() {
        if !begins(b',', rest) {
            return Ok((pins, rest));
        }
        let (next, behind) = next_pin(alloc, rest)?;
        pins.push(next)?;
        rest = behind;
    }
    Ok((pins, rest))
}

// `pin { , pin }`.
#[tactic(auto, unfolding(crate::specs::Reading::listed_at))]
fn listed_pins(alloc: Global, bytes: &[u8]) -> Result<(List<Connection>, &[u8]), Stop>
    ensures { spec.Gives (λ x. (map pin_view x.0, tokens_of x.1.now)) result (spec.listed_at spec.pin_at (tokens_of bytes.now)) }
{
    let (first, rest) = pin(alloc, bytes)?;
    more_pins(alloc, first, rest)
}

// Pins, or none before `)`.
fn pins(alloc: Global, bytes: &[u8]) -> Result<(List<Connection>, &[u8]), Stop>
    ensures { spec.Gives (λ x. (map pin_view x.0, tokens_of x.1.now)) result (spec.pins_at (tokens_of bytes.now)) }
{
    if begins(b')', bytes) {
        Ok((List::new(alloc), bytes))
    } else {
        listed_pins(alloc, bytes)
    }
}

// A declaration, behind its attributes.
#[tactic(auto, unfolding(crate::specs::Reading::declare_at))]
fn declare(alloc: Global, attributes: List<Attribute>, bytes: &[u8]) -> Result<(Item, &[u8]), Stop>
    ensures { spec.Gives (λ x. (item_view x.0, tokens_of x.1.now)) result (spec.declare_at attributes (tokens_of bytes.now)) }
{
    let (way, rest) = any_way(bytes)?;
    let (range, rest) = optional_range(rest)?;
    let (names, rest) = names(alloc, rest)?;
    let rest = symbol(b';', rest)?;
    Ok((
        Item::Declare {
            attributes,
            way,
            range,
            names,
        },
        rest,
    ))
}

// `target = form ;`, behind `assign`.
#[tactic(auto, unfolding(crate::specs::Reading::assign_at))]
fn assign(alloc: Global, attributes: List<Attribute>, bytes: &[u8]) -> Result<(Item, &[u8]), Stop>
    ensures { spec.Gives (λ x. (item_view x.0, tokens_of x.1.now)) result (spec.assign_at attributes (tokens_of bytes.now)) }
{
    let (left, rest) = form(alloc, false, DEPTH, bytes)?;
    let rest = symbol(b'=', rest)?;
    let (right, rest) = form(alloc, true, DEPTH, rest)?;
    let rest = symbol(b';', rest)?;
    Ok((
        Item::Assign {
            attributes,
            left,
            right,
        },
        rest,
    ))
}

// `ident ident ( pins ) ;`.
#[tactic(auto, unfolding(crate::specs::Reading::instance_at))]
fn instance(alloc: Global, attributes: List<Attribute>, bytes: &[u8]) -> Result<(Item, &[u8]), Stop>
    ensures { spec.Gives (λ x. (item_view x.0, tokens_of x.1.now)) result (spec.instance_at attributes (tokens_of bytes.now)) }
{
    let (cell, rest) = ident(bytes)?;
    let (name, rest) = ident(rest)?;
    let rest = symbol(b'(', rest)?;
    let (pins, rest) = pins(alloc, rest)?;
    let rest = symbol(b')', rest)?;
    let rest = symbol(b';', rest)?;
    let cell = Name::from_slice(alloc, cell)?;
    let name = Name::from_slice(alloc, name)?;
    Ok((
        Item::Instance {
            attributes,
            cell,
            name,
            pins,
        },
        rest,
    ))
}

// An item, behind its attributes.
fn bare(alloc: Global, attributes: List<Attribute>, bytes: &[u8]) -> Result<(Item, &[u8]), Stop>
    ensures { spec.Gives (λ x. (item_view x.0, tokens_of x.1.now)) result (spec.bare_at attributes (tokens_of bytes.now)) }
{
    if begins_name(bytes) {
        return instance(alloc, attributes, bytes);
    }
    match behind_key(b"assign", bytes) {
        Some(rest) => assign(alloc, attributes, rest),
        None => declare(alloc, attributes, bytes),
    }
}

// An item.
#[tactic(auto, unfolding(crate::specs::Reading::item_at))]
fn item(alloc: Global, bytes: &[u8]) -> Result<(Item, &[u8]), Stop>
    ensures { spec.Gives (λ x. (item_view x.0, tokens_of x.1.now)) result (spec.item_at (tokens_of bytes.now)) }
{
    let (attributes, rest) = attributes(alloc, bytes)?;
    bare(alloc, attributes, rest)
}

// Items behind others, up to `endmodule`.
pub(crate) fn items(
    front: List<Item>,
    alloc: Global,
    bytes: &[u8],
) -> Result<(List<Item>, &[u8]), Stop>
    ensures { spec.Gives (λ x. (map item_view x.0, tokens_of x.1.now)) result (spec.with_front (map item_view front) (spec.items_at (tokens_of bytes.now))) }
{
    let mut items = front;
    let mut rest = bytes;
    for _ in 0..bytes.len() {
        if !goes_on(rest) {
            return Ok((items, rest));
        }
        let (next, behind) = item(alloc, rest)?;
        items.push(next)?;
        rest = behind;
    }
    Ok((items, rest))
}
