ghost use Rattle.std.specs.Prelude.{◌≡◌, ◌<◌, ◌∷◌, [], IfOk, Some, None, length, map, All, Option};
ghost use Rattle.std.specs.List.{flat_map};
ghost use Rattle.agm_net.specs.View.{plain_of};
ghost use Rattle.serde_json.specs.View.{view};
ghost use Rattle.json_values.specs.Json.{json_of};
ghost use Rattle.stimulus.specs.Answer.{IsTapeOf, Passes, TapeAnswers, row_of};
ghost use Rattle.stimulus.specs.Asked.{cycles_asked, first_fault, tape_asked, tape_inputs};

use crate::checks::check_steps;
use crate::inputs::{Wanted, tape_wanted};
use crate::reading::bad;
use crate::stimuli::rows_of;
use crate::texts::{Member, read_cycles};
use crate::{StimulusCause, StimulusFault};
use agm_bits::{List, Tape};
use agm_net::Net;
use json_values::{JsonFault, json_value};
use serde_json::Value;
use std::alloc::Global;

// The number of cycles.
fn check_count(rows: Option<usize>, cycles: &[List<Member>]) -> Result<(), StimulusFault>
    ensures { Passes (cycles_asked rows cycles.now ∷ []) (λ _. Unit {0}) result }
{
    let is_other = match rows {
        Some(wanted) => cycles.len() != wanted,
        None => false,
    };
    if cycles.len() == 0 || is_other {
        return Err(bad(StimulusCause::Cycles));
    }
    Ok(())
}

// All causes, in their order.
fn check_cycles(
    alloc: Global,
    wanted: &Wanted,
    rows: Option<usize>,
    cycles: &[List<Member>],
) -> Result<(), StimulusFault>
    ensures { Passes (tape_asked wanted.now.inputs rows cycles.now) (λ _. Unit {0}) result }
{
    check_count(rows, cycles)?;
    check_steps(alloc, wanted, StimulusCause::Inputs, 0, cycles)?;
    check_steps(alloc, wanted, StimulusCause::Bits, 0, cycles)
}

// The tape of texts.
fn tape_of(
    alloc: Global,
    net: &Net,
    rows: Option<usize>,
    cycles: &[List<Member>],
) -> Result<Tape, StimulusFault>
    ensures { Passes (tape_asked (tape_inputs (plain_of net.now)) rows cycles.now) (IsTapeOf (plain_of net.now) cycles.now) result }
{
    let wanted = tape_wanted(alloc, net)?;
    check_cycles(alloc, &wanted, rows, cycles)?;
    let rows = rows_of(alloc, &wanted, cycles)?;
    Ok(Tape {
        width: rows.as_slice()[0].len(),
        rows,
    })
}

// The tape of a JSON value.
fn tape_in(
    alloc: Global,
    net: &Net,
    rows: Option<usize>,
    value: &Value,
) -> Result<Tape, StimulusFault>
    ensures { TapeAnswers (plain_of net.now) rows (Some (view value.now)) result }
{
    let read = read_cycles(alloc, value)?;
    match read {
        Some(cycles) => tape_of(alloc, net, rows, cycles.as_slice()),
        None => Err(bad(StimulusCause::Shape)),
    }
}

/// Reads a tape of a masked net's input bits without the clock's and those of `agm_r`: `{"cycles":[{"agm_load":"0","agm_s0_a":"1"}]}`. A
/// cycle maps the name of each input port but these to its bits, most significant first. `rows` is the number of cycles that is wanted,
/// if any.
///
/// Takes near linear time and memory in the number of bytes, times the number of input ports where cycles lack some.
///
/// # Errors
///
/// The first cause that holds, each one looked for in all cycles before the next; or `Memory`.
pub fn read_tape(
    alloc: Global,
    bytes: &[u8],
    net: &Net,
    rows: Option<usize>,
) -> Result<Tape, StimulusFault>
    ensures { TapeAnswers (plain_of net.now) rows (json_of bytes.now) result }
{
    match json_value(alloc, bytes) {
        Ok(value) => tape_in(alloc, net, rows, &value),
        Err(JsonFault::NoJson) => Err(bad(StimulusCause::Json)),
        Err(JsonFault::Memory) => Err(StimulusFault::Memory),
    }
}
