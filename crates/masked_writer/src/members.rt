//! The members of a report's object, one after another.

ghost use Rattle.std.specs.Prelude.{◌≡◌, ℕ, IfOk, List, map, option_map, string_bytes, codes};
ghost use Rattle.serde_json.specs.Data.{Data, Members, member, no_members, object, string, array};
ghost use Rattle.serde_json.specs.View.{view, members_view, items_of, items_view};
ghost use Rattle.masked_writer.specs.Report as spec;
ghost use Rattle.masked_writer.specs.Stated.{Any, Finds, IsSmall, Takes};

use crate::report::{balance_in, mode_in};
use agm_bits::{List, Memory, Name};
use serde_json::Value;
use share_wiring::{Balance, Mode};
use std::alloc::Global;
use std::collections::btree_map::Iter;

// The next member, where it has this key.
fn next_member<'v>(members: &mut Iter<'v, String, Value>, key: &str) -> Option<&'v Value>
    ensures { Takes Any (λ d. member key.now d) (members_view members.old) (option_map (λ v. view v.now) result) (members_view members.new) }
{
    let Some((name, value)) = members.next() else {
        return None;
    };
    if name.as_str() != key {
        return None;
    }
    Some(value)
}

// A whole number below 2^32.
fn small_number(value: &Value) -> Option<u32>
    ensures { Finds IsSmall spec.whole_number (view value.now) result }
{
    match value.as_u64() {
        Some(number) if number <= 4_294_967_295 => Some(number as u32),
        _ => None,
    }
}

// The next member, where it is a number below 2^32 of this key.
fn next_number<'v>(members: &mut Iter<'v, String, Value>, key: &str) -> Option<u32>
    ensures { Takes IsSmall (λ n. member key.now (spec.whole_number n)) (members_view members.old) result (members_view members.new) }
{
    match next_member(members, key) {
        Some(value) => small_number(value),
        None => None,
    }
}

// The mode that a value states.
fn mode_at(value: &Value) -> Option<Mode>
    ensures { Finds Any (λ m. string (spec.mode_text m)) (view value.now) result }
{
    match value.as_str() {
        Some(word) => mode_in(word),
        None => None,
    }
}

// The balance that a value states.
fn balance_at(value: &Value) -> Option<Balance>
    ensures { Finds Any (λ b. string (spec.balance_text b)) (view value.now) result }
{
    match value.as_str() {
        Some(word) => balance_in(word),
        None => None,
    }
}

// Names, where all values are texts.
fn names_at(alloc: Global, values: &[Value]) -> Result<Option<List<Name>>, Memory>
    ensures { IfOk result (λ names. Finds Any (λ (ns : List (List ℕ)). array (items_of (map string ns))) (array (items_view values.now)) names) }
{
    let mut names = List::new(alloc);
    for value in values {
        match value.as_str() {
            None => return Ok(None),
            Some(text) => names.push(List::from_slice(alloc, text.as_bytes())?)?,
        }
    }
    Ok(Some(names))
}

// The names that a value states.
fn ports_at(alloc: Global, value: &Value) -> Result<Option<List<Name>>, Memory>
    ensures { IfOk result (λ names. Finds Any (λ (ns : List (List ℕ)). array (items_of (map string ns))) (view value.now) names) }
{
    match value.as_array() {
        Some(values) => names_at(alloc, values.as_slice()),
        None => Ok(None),
    }
}

/// Balance, gadgets and latency.
pub(crate) fn opening<'v>(members: &mut Iter<'v, String, Value>) -> Option<(Balance, u32, u32)>
    ensures { Takes (λ t. IsSmall t.1 × IsSmall t.2) (λ t. spec.opening_members t.0 t.1 t.2) (members_view members.old) result (members_view members.new) }
{
    let Some(balance) = next_member(members, "balance") else {
        return None;
    };
    let Some(balance) = balance_at(balance) else {
        return None;
    };
    let Some(gadgets) = next_number(members, "gadgets") else {
        return None;
    };
    let Some(latency) = next_number(members, "latency") else {
        return None;
    };
    Some((balance, gadgets, latency))
}

/// Mode, order and period.
pub(crate) fn asked<'v>(members: &mut Iter<'v, String, Value>) -> Option<(Mode, u32, u32)>
    ensures { Takes (λ t. IsSmall t.1 × IsSmall t.2) (λ t. spec.asked_members t.0 t.1 t.2) (members_view members.old) result (members_view members.new) }
{
    let Some(mode) = next_member(members, "mode") else {
        return None;
    };
    let Some(mode) = mode_at(mode) else {
        return None;
    };
    let Some(order) = next_number(members, "order") else {
        return None;
    };
    let Some(period) = next_number(members, "period") else {
        return None;
    };
    Some((mode, order, period))
}

/// The names of the shared ports.
pub(crate) fn ports<'v>(
    alloc: Global,
    members: &mut Iter<'v, String, Value>,
) -> Result<Option<List<Name>>, Memory>
    ensures { IfOk result (λ names. Takes Any spec.ports_member (members_view members.old) names (members_view members.new)) }
{
    match next_member(members, "ports") {
        Some(value) => ports_at(alloc, value),
        None => Ok(None),
    }
}

/// The numbers of public registers, of random bits and of secret registers.
pub(crate) fn counts<'v>(members: &mut Iter<'v, String, Value>) -> Option<(u32, u32, u32)>
    ensures { Takes (λ t. IsSmall t.0 × IsSmall t.1 × IsSmall t.2) (λ t. spec.count_members t.0 t.1 t.2) (members_view members.old) result (members_view members.new) }
{
    let Some(public) = next_number(members, "public_registers") else {
        return None;
    };
    let Some(random) = next_number(members, "random") else {
        return None;
    };
    let Some(secret) = next_number(members, "secret_registers") else {
        return None;
    };
    Some((public, random, secret))
}

/// The streams and the version, behind which nothing stands.
pub(crate) fn closing<'v>(members: &mut Iter<'v, String, Value>) -> Option<(u32, u32)>
    ensures { Finds (λ t. IsSmall t.0 × IsSmall t.1) (λ t. object (spec.closing_members t.0 t.1 no_members)) (object (members_view members.old)) result }
{
    let Some(streams) = next_number(members, "streams") else {
        return None;
    };
    let Some(version) = next_number(members, "version") else {
        return None;
    };
    if members.next().is_some() {
        return None;
    }
    Some((streams, version))
}
