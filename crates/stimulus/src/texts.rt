//! The texts of a stimulus and of a tape, taken out of a JSON value.

ghost use Rattle.std.specs.Prelude.{◌≡◌, IfOk, map, string_bytes};
ghost use Rattle.serde_json.specs.View.{view, members_view, items_of, items_view};
ghost use Rattle.json_values.specs.Finds.{Finds};
ghost use Rattle.stimulus.specs.Written as spec;

use agm_bits::{List, Memory, Name};
use json_values::{only_member, two_members};
use serde_json::{Map, Value};
use std::alloc::Global;

/// A member of a step: the name of a port, and the text of its bits.
#[derive(Debug, Drop)]
pub struct Member {
    pub key: Name,
    pub text: Name,
}

/// A stream as it is written.
#[derive(Debug, Drop)]
pub struct StreamText {
    pub initial: Name,
    pub steps: List<List<Member>>,
}

// A member of a step.
fn member_of(alloc: Global, key: &String, text: &str) -> Result<Member, Memory>
    ensures key { IfOk result (λ m. m.key ≡ string_bytes key.now) }
    ensures text { IfOk result (λ m. m.text ≡ text.now) }
{
    Ok(Member {
        key: List::from_slice(alloc, key.as_bytes())?,
        text: List::from_slice(alloc, text.as_bytes())?,
    })
}

// The members of an object, where all are strings.
fn read_members(alloc: Global, map: &Map<String, Value>) -> Result<Option<List<Member>>, Memory>
    ensures { IfOk result (Finds spec.members_data (members_view map.now.entries)) }
{
    let mut step = List::new(alloc);
    for (key, value) in map.iter() {
        match value.as_str() {
            None => return Ok(None),
            Some(text) => step.push(member_of(alloc, key, text)?)?,
        }
    }
    Ok(Some(step))
}

// A step.
fn read_step(alloc: Global, value: &Value) -> Result<Option<List<Member>>, Memory>
    ensures { IfOk result (Finds spec.step_data (view value.now)) }
{
    let Some(map) = value.as_object() else {
        return Ok(None);
    };
    read_members(alloc, map)
}

// Steps, where all are some.
fn read_steps(alloc: Global, values: &[Value]) -> Result<Option<List<List<Member>>>, Memory>
    ensures { IfOk result (Finds (λ steps. items_of (map spec.step_data steps)) (items_view values.now)) }
{
    let mut steps = List::new(alloc);
    for value in values {
        let read = read_step(alloc, value)?;
        match read {
            None => return Ok(None),
            Some(step) => steps.push(step)?,
        }
    }
    Ok(Some(steps))
}

// A stream, by its two members.
fn read_parts(alloc: Global, initial: &Value, steps: &Value) -> Result<Option<StreamText>, Memory>
    ensures { IfOk result (Finds spec.stream_parts (view initial.now, view steps.now)) }
{
    let Some(initial) = initial.as_str() else {
        return Ok(None);
    };
    let Some(steps) = steps.as_array() else {
        return Ok(None);
    };
    let read = read_steps(alloc, steps.as_slice())?;
    let Some(steps) = read else {
        return Ok(None);
    };
    let initial = List::from_slice(alloc, initial.as_bytes())?;
    Ok(Some(StreamText { initial, steps }))
}

// A stream.
fn read_stream(alloc: Global, value: &Value) -> Result<Option<StreamText>, Memory>
    ensures { IfOk result (Finds spec.stream_data (view value.now)) }
{
    match two_members(value, "initial", "steps") {
        None => Ok(None),
        Some((initial, steps)) => read_parts(alloc, initial, steps),
    }
}

// Streams, where all are some.
fn read_streams(alloc: Global, values: &[Value]) -> Result<Option<List<StreamText>>, Memory>
    ensures { IfOk result (Finds (λ texts. items_of (map spec.stream_data texts)) (items_view values.now)) }
{
    let mut texts = List::new(alloc);
    for value in values {
        let read = read_stream(alloc, value)?;
        match read {
            None => return Ok(None),
            Some(text) => texts.push(text)?,
        }
    }
    Ok(Some(texts))
}

/// The texts of a stimulus, where the value has its shape.
pub(crate) fn read_texts(alloc: Global, value: &Value) -> Result<Option<List<StreamText>>, Memory>
    ensures { IfOk result (Finds spec.stimulus_data (view value.now)) }
{
    let Some(streams) = only_member(value, "streams") else {
        return Ok(None);
    };
    let Some(streams) = streams.as_array() else {
        return Ok(None);
    };
    read_streams(alloc, streams.as_slice())
}

/// The texts of a tape, where the value has its shape.
pub(crate) fn read_cycles(
    alloc: Global,
    value: &Value,
) -> Result<Option<List<List<Member>>>, Memory>
    ensures { IfOk result (Finds spec.tape_data (view value.now)) }
{
    let Some(cycles) = only_member(value, "cycles") else {
        return Ok(None);
    };
    let Some(cycles) = cycles.as_array() else {
        return Ok(None);
    };
    read_steps(alloc, cycles.as_slice())
}
