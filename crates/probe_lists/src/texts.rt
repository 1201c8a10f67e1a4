//! The texts of a list of probes, taken out of a JSON value.

ghost use Rattle.std.specs.Prelude.{◌≡◌, IfOk, map};
ghost use Rattle.serde_json.specs.View.{view, items_of, items_view};
ghost use Rattle.json_values.specs.Finds as shape;
ghost use Rattle.json_values.specs.Finds.{Finds};
ghost use Rattle.probe_lists.specs.Written as spec;

use agm_bits::{List, Memory, Name};
use json_values::{two_members, whole_number};
use serde_json::Value;
use std::alloc::Global;

/// A probe as it is written.
#[derive(Debug, Drop)]
pub struct ProbeText {
    pub wire: Name,
    pub cycle: usize,
}

/// A list of probes as it is written.
#[derive(Debug, Drop)]
pub struct ListText {
    pub indices: List<usize>,
    pub probes: List<ProbeText>,
}

// A probe, by its two members.
fn read_parts(alloc: Global, cycle: &Value, wire: &Value) -> Result<Option<ProbeText>, Memory>
    ensures { IfOk result (Finds spec.probe_parts (view cycle.now, view wire.now)) }
{
    let Some(cycle) = whole_number(cycle) else {
        return Ok(None);
    };
    let Some(wire) = wire.as_str() else {
        return Ok(None);
    };
    let wire = List::from_slice(alloc, wire.as_bytes())?;
    Ok(Some(ProbeText { wire, cycle }))
}

// A probe.
fn read_probe(alloc: Global, value: &Value) -> Result<Option<ProbeText>, Memory>
    ensures { IfOk result (Finds spec.probe_data (view value.now)) }
{
    match two_members(value, "cycle", "wire") {
        None => Ok(None),
        Some((cycle, wire)) => read_parts(alloc, cycle, wire),
    }
}

// Probes, where all are some.
fn read_all_probes(alloc: Global, values: &[Value]) -> Result<Option<List<ProbeText>>, Memory>
    ensures { IfOk result (Finds (λ probes. items_of (map spec.probe_data probes)) (items_view values.now)) }
{
    let mut probes = List::new(alloc);
    for value in values {
        let read = read_probe(alloc, value)?;
        match read {
            None => return Ok(None),
            Some(probe) => probes.push(probe)?,
        }
    }
    Ok(Some(probes))
}

// Whole numbers, where all are some.
fn read_numbers(alloc: Global, values: &[Value]) -> Result<Option<List<usize>>, Memory>
    ensures { IfOk result (Finds (λ numbers. items_of (map shape.whole_number numbers)) (items_view values.now)) }
{
    let mut numbers = List::new(alloc);
    for value in values {
        match whole_number(value) {
            None => return Ok(None),
            Some(number) => numbers.push(number)?,
        }
    }
    Ok(Some(numbers))
}

// A list of probes, by its two members.
fn read_lists(alloc: Global, indices: &Value, probes: &Value) -> Result<Option<ListText>, Memory>
    ensures { IfOk result (Finds spec.list_parts (view indices.now, view probes.now)) }
{
    let Some(indices) = indices.as_array() else {
        return Ok(None);
    };
    let Some(probes) = probes.as_array() else {
        return Ok(None);
    };
    let read = read_numbers(alloc, indices.as_slice())?;
    let Some(indices) = read else {
        return Ok(None);
    };
    let read = read_all_probes(alloc, probes.as_slice())?;
    let Some(probes) = read else {
        return Ok(None);
    };
    Ok(Some(ListText { indices, probes }))
}

/// The texts of a list of probes, where the value has its shape.
pub(crate) fn read_texts(alloc: Global, value: &Value) -> Result<Option<ListText>, Memory>
    ensures { IfOk result (Finds spec.list_data (view value.now)) }
{
    match two_members(value, "indices", "probes") {
        None => Ok(None),
        Some((indices, probes)) => read_lists(alloc, indices, probes),
    }
}
