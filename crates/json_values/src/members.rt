//! The parts of values.

ghost use Rattle.std.specs.Prelude.{option_map};
ghost use Rattle.serde_json.specs.Data.{Data, object, member, no_members};
ghost use Rattle.serde_json.specs.View.{view};
ghost use Rattle.json_values.specs.Finds.{Finds};
ghost use Rattle.json_values.specs.Finds as spec;

use serde_json::Value;

/// The only member of an object, where it has this key.
pub fn only_member<'v>(value: &'v Value, key: &str) -> Option<&'v Value>
    ensures { Finds (λ d. object (member key.now d no_members)) (view value.now) (option_map (λ v. view v.now) result) }
{
    let Some(map) = value.as_object() else {
        return None;
    };
    let mut members = map.iter();
    let Some((name, item)) = members.next() else {
        return None;
    };
    if members.next().is_some() || name.as_str() != key {
        return None;
    }
    Some(item)
}

/// The two members of an object, where they have these keys. The first key is the lesser.
pub fn two_members<'v>(
    value: &'v Value,
    first_key: &str,
    second_key: &str,
) -> Option<(&'v Value, &'v Value)>
    ensures { Finds (λ (p : Data × Data). object (member first_key.now p.0 (member second_key.now p.1 no_members))) (view value.now) (option_map (λ r. (view r.0.now, view r.1.now)) result) }
{
    let Some(map) = value.as_object() else {
        return None;
    };
    let mut members = map.iter();
    let Some((first_name, first)) = members.next() else {
        return None;
    };
    let Some((second_name, second)) = members.next() else {
        return None;
    };
    if members.next().is_some()
        || first_name.as_str() != first_key
        || second_name.as_str() != second_key
    {
        return None;
    }
    Some((first, second))
}

/// A whole number from 0 to 2^64-1: no sign, point or exponent.
pub fn whole_number(value: &Value) -> Option<usize>
    ensures { Finds spec.whole_number (view value.now) result }
{
    match value.as_u64() {
        Some(number) => Some(number as usize),
        None => None,
    }
}
