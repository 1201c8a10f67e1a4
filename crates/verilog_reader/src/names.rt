ghost use Rattle.std.specs.Prelude.{◌≡◌, [], ◌∷◌};
ghost use Rattle.verilog_tokens.specs.Row.{tokens_of};
ghost use Rattle.verilog_reader.specs.Reading as spec;

use crate::stop::Stop;
use crate::terminals::{begins, behind, behind_key, ident, number, symbol, way};
use agm_bits::{List, Name};
use agm_net::{Range, Way};
use std::alloc::Global;

// `, ident`.
#[tactic(auto, unfolding(crate::specs::Reading::next_at))]
fn next_name(bytes: &[u8]) -> Result<(&[u8], &[u8]), Stop>
    ensures { spec.Gives (λ x. (x.0.now, tokens_of x.1.now)) result (spec.next_at spec.ident_at (tokens_of bytes.now)) }
{
    let rest = symbol(b',', bytes)?;
    ident(rest)
}

// A first name, and `, ident` as often as it comes.
fn more_names(alloc: Global, first: Name, bytes: &[u8]) -> Result<(List<Name>, &[u8]), Stop>
    ensures { spec.Gives (λ x. (x.0, tokens_of x.1.now)) result (spec.with_front (first ∷ []) (spec.more_at spec.ident_at (tokens_of bytes.now))) }
{
    let mut names = List::new(alloc);
    names.push(first)?;
    let mut rest = bytes;
    for _ in 0..bytes.len() {
        if !begins(b',', rest) {
            return Ok((names, rest));
        }
        let (name, behind) = next_name(rest)?;
        names.push(Name::from_slice(alloc, name)?)?;
        rest = behind;
    }
    Ok((names, rest))
}

// `ident { , ident }`.
#[tactic(auto, unfolding(crate::specs::Reading::listed_at))]
pub(crate) fn names(alloc: Global, bytes: &[u8]) -> Result<(List<Name>, &[u8]), Stop>
    ensures { spec.Gives (λ x. (x.0, tokens_of x.1.now)) result (spec.listed_at spec.ident_at (tokens_of bytes.now)) }
{
    let (first, rest) = ident(bytes)?;
    let first = Name::from_slice(alloc, first)?;
    more_names(alloc, first, rest)
}

// `number : number ]`, behind `[`.
#[tactic(auto, unfolding(crate::specs::Reading::range_at))]
fn range(bytes: &[u8]) -> Result<(Option<Range>, &[u8]), Stop>
    ensures { spec.Gives (λ x. (x.0, tokens_of x.1.now)) result (spec.range_at (tokens_of bytes.now)) }
{
    let (msb, rest) = number(0, bytes)?;
    let rest = symbol(b':', rest)?;
    let (lsb, rest) = number(0, rest)?;
    let rest = symbol(b']', rest)?;
    Ok((Some(Range { msb, lsb }), rest))
}

// A range, where there is one.
pub(crate) fn optional_range(bytes: &[u8]) -> Result<(Option<Range>, &[u8]), Stop>
    ensures { spec.Gives (λ x. (x.0, tokens_of x.1.now)) result (spec.optional_range_at (tokens_of bytes.now)) }
{
    match behind(b'[', bytes) {
        Some(rest) => range(rest),
        None => Ok((None, bytes)),
    }
}

// What stands behind `wire`, where it stands in front.
fn behind_wire(bytes: &[u8]) -> &[u8]
    ensures { tokens_of result.now ≡ spec.behind_wire (tokens_of bytes.now) }
{
    match behind_key(b"wire", bytes) {
        Some(rest) => rest,
        None => bytes,
    }
}

// A way, and perhaps `wire`.
#[tactic(auto, unfolding(crate::specs::Reading::port_way_at))]
pub(crate) fn port_way(bytes: &[u8]) -> Result<(Way, &[u8]), Stop>
    ensures { spec.Gives (λ x. (x.0, tokens_of x.1.now)) result (spec.port_way_at (tokens_of bytes.now)) }
{
    let (way, rest) = way(bytes)?;
    Ok((way, behind_wire(rest)))
}

// A way of ports.
#[tactic(auto, unfolding(crate::specs::Reading::some_way_at))]
fn some_way(bytes: &[u8]) -> Result<(Option<Way>, &[u8]), Stop>
    ensures { spec.Gives (λ x. (x.0, tokens_of x.1.now)) result (spec.some_way_at (tokens_of bytes.now)) }
{
    let (way, rest) = port_way(bytes)?;
    Ok((Some(way), rest))
}

// A way, and perhaps `wire`; or `wire` alone.
pub(crate) fn any_way(bytes: &[u8]) -> Result<(Option<Way>, &[u8]), Stop>
    ensures { spec.Gives (λ x. (x.0, tokens_of x.1.now)) result (spec.any_way_at (tokens_of bytes.now)) }
{
    match behind_key(b"wire", bytes) {
        Some(rest) => Ok((None, rest)),
        None => some_way(bytes),
    }
}
