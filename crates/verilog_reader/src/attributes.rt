ghost use Rattle.std.specs.Prelude.{◌≡◌, ◌++◌, [], ◌∷◌, IfOk};
ghost use Rattle.verilog_tokens.specs.Row.{tokens_of};
ghost use Rattle.verilog_reader.specs.Reading as spec;

use crate::stop::Stop;
use crate::terminals::{begins, begins_open, behind, close, ident, open, symbol, value};
use crate::{Attribute, Value};
use agm_bits::{List, Memory, Name};
use std::alloc::Global;

// A value as the value that is set.
#[tactic(auto, unfolding(crate::specs::Reading::some_value_at))]
fn some_value(alloc: Global, bytes: &[u8]) -> Result<(Option<Value>, &[u8]), Stop>
    ensures { spec.Gives (λ x. (x.0, tokens_of x.1.now)) result (spec.some_value_at (tokens_of bytes.now)) }
{
    let (value, rest) = value(alloc, bytes)?;
    Ok((Some(value), rest))
}

// `= value`, where it stands.
fn set(alloc: Global, bytes: &[u8]) -> Result<(Option<Value>, &[u8]), Stop>
    ensures { spec.Gives (λ x. (x.0, tokens_of x.1.now)) result (spec.set_at (tokens_of bytes.now)) }
{
    match behind(b'=', bytes) {
        Some(rest) => some_value(alloc, rest),
        None => Ok((None, bytes)),
    }
}

// An attribute.
#[tactic(auto, unfolding(crate::specs::Reading::attribute_at))]
fn attribute(alloc: Global, bytes: &[u8]) -> Result<(Attribute, &[u8]), Stop>
    ensures { spec.Gives (λ x. (x.0, tokens_of x.1.now)) result (spec.attribute_at (tokens_of bytes.now)) }
{
    let (name, rest) = ident(bytes)?;
    let (value, rest) = set(alloc, rest)?;
    let name = Name::from_slice(alloc, name)?;
    Ok((Attribute { name, value }, rest))
}

// `, attribute`.
#[tactic(auto, unfolding(crate::specs::Reading::next_at))]
fn next_attribute(alloc: Global, bytes: &[u8]) -> Result<(Attribute, &[u8]), Stop>
    ensures { spec.Gives (λ x. (x.0, tokens_of x.1.now)) result (spec.next_at spec.attribute_at (tokens_of bytes.now)) }
{
    let rest = symbol(b',', bytes)?;
    attribute(alloc, rest)
}

// A first attribute, and `, attribute` as often as it comes.
fn more_attributes(
    alloc: Global,
    first: Attribute,
    bytes: &[u8],
) -> Result<(List<Attribute>, &[u8]), Stop>
    ensures { spec.Gives (λ x. (x.0, tokens_of x.1.now)) result (spec.with_front (first ∷ []) (spec.more_at spec.attribute_at (tokens_of bytes.now))) }
{
    let mut attributes = List::new(alloc);
    attributes.push(first)?;
    let mut rest = bytes;
    for _ in 0..bytes.len() {
        if !begins(b',', rest) {
            return Ok((attributes, rest));
        }
        let (next, behind) = next_attribute(alloc, rest)?;
        attributes.push(next)?;
        rest = behind;
    }
    Ok((attributes, rest))
}

// `attribute { , attribute }`.
#[tactic(auto, unfolding(crate::specs::Reading::listed_at))]
fn listed(alloc: Global, bytes: &[u8]) -> Result<(List<Attribute>, &[u8]), Stop>
    ensures { spec.Gives (λ x. (x.0, tokens_of x.1.now)) result (spec.listed_at spec.attribute_at (tokens_of bytes.now)) }
{
    let (first, rest) = attribute(alloc, bytes)?;
    more_attributes(alloc, first, rest)
}

// `(* attribute { , attribute } *)`.
#[tactic(auto, unfolding(crate::specs::Reading::block_at))]
fn block(alloc: Global, bytes: &[u8]) -> Result<(List<Attribute>, &[u8]), Stop>
    ensures { spec.Gives (λ x. (x.0, tokens_of x.1.now)) result (spec.block_at (tokens_of bytes.now)) }
{
    let rest = open(bytes)?;
    let (attributes, rest) = listed(alloc, rest)?;
    let rest = close(rest)?;
    Ok((attributes, rest))
}

// One list behind another.
fn joined(front: List<Attribute>, behind: List<Attribute>) -> Result<List<Attribute>, Memory>
    ensures { IfOk result (λ list. list ≡ front ++ behind) }
{
    let mut items = front.into_vec();
    let mut more = behind.into_vec();
    items.append(&mut more)?;
    Ok(List::from_vec(items))
}

// The attributes of all blocks that stand in front.
pub(crate) fn attributes(alloc: Global, bytes: &[u8]) -> Result<(List<Attribute>, &[u8]), Stop>
    ensures { spec.Gives (λ x. (x.0, tokens_of x.1.now)) result (spec.attributes_at (tokens_of bytes.now)) }
{
    let mut attributes = List::new(alloc);
    let mut rest = bytes;
    for _ in 0..bytes.len() {
        if !begins_open(rest) {
            return Ok((attributes, rest));
        }
        let (block, behind) = block(alloc, rest)?;
        attributes = joined(attributes, block)?;
        rest = behind;
    }
    Ok((attributes, rest))
}

// A copy of a value.
fn copy_value(alloc: Global, value: &Value) -> Result<Value, Memory>
    ensures { IfOk result (λ v. v ≡ value.now) }
{
    match value {
        Value::Text(text) => Ok(Value::Text(Name::from_slice(alloc, text.as_slice())?)),
        Value::Number(number) => Ok(Value::Number(*number)),
        Value::Bits(bits) => Ok(Value::Bits(List::from_slice(alloc, bits.as_slice())?)),
    }
}

// A copy of a value, where there is one.
fn copy_set(alloc: Global, value: &Option<Value>) -> Result<Option<Value>, Memory>
    ensures { IfOk result (λ v. v ≡ value.now) }
{
    match value {
        Some(value) => Ok(Some(copy_value(alloc, value)?)),
        None => Ok(None),
    }
}

// A copy of an attribute.
fn copy_attribute(alloc: Global, attribute: &Attribute) -> Result<Attribute, Memory>
    ensures { IfOk result (λ a. a ≡ attribute.now) }
{
    let name = Name::from_slice(alloc, attribute.name.as_slice())?;
    let value = copy_set(alloc, &attribute.value)?;
    Ok(Attribute { name, value })
}

// A copy of attributes.
pub(crate) fn copy_attributes(
    alloc: Global,
    attributes: &List<Attribute>,
) -> Result<List<Attribute>, Memory>
    ensures { IfOk result (λ list. list ≡ attributes.now) }
{
    let mut copy = List::new(alloc);
    for attribute in attributes.as_slice() {
        copy.push(copy_attribute(alloc, attribute)?)?;
    }
    Ok(copy)
}
