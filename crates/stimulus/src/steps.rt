//! A step: the texts of its inputs, whether they are right, and its row.

ghost use Rattle.std.specs.Prelude.{◌≡◌, ◌&&◌, ◌||◌, ◌==◌, ◌<◌, ◌++◌, IfOk, OnOk, None, List, [], length, map, replicate, is_some, unwrap_or, not};
ghost use Rattle.std.specs.List.{list_all};
ghost use Rattle.std.specs.Option.{option_and_then};
ghost use Rattle.std.specs.Prelude.{slice_set, vec_len, Some, ◌∷◌};
ghost use Rattle.agm_net.specs.WellFormed.{Differ};
ghost use Rattle.stimulus.specs.Asked as spec;
ghost use Rattle.stimulus.specs.Answer.{bits_in, row_of as row_spec};

use crate::StimulusCause;
use crate::inputs::{Input, Wanted};
use crate::texts::Member;
use agm_bits::{BitRow, List, Memory, Name};
use name_table::Names;
use std::alloc::Global;

// Whether a key is a name of a table.
fn is_among(names: &Names, key: &[u8]) -> bool
    ensures { result ≡ spec.is_among names.now key.now }
{
    names.find(key).is_some()
}

// Whether all keys are.
fn are_among(names: &Names, step: &[Member]) -> bool
    ensures { result ≡ list_all (λ m. spec.is_among names.now m.key) step.now }
{
    for member in step {
        if !is_among(names, member.key.as_slice()) {
            return false;
        }
    }
    true
}

// So many places without a text.
fn no_texts(alloc: Global, count: usize) -> Result<Vec<Option<Name>>, Memory>
    ensures { IfOk result (λ texts. texts.items ≡ replicate count None) }
{
    let mut texts = Vec::with_capacity(alloc, count)?;
    for _ in 0..count {
        texts.push(None)?;
    }
    Ok(texts)
}

// Sets the text at a place.
fn set_text(texts: &mut Vec<Option<Name>>, place: usize, text: Name)
    requires { place < vec_len texts.old }
    ensures { texts.new.items ≡ slice_set texts.old.items place (Some text) }
{
    texts[place] = Some(text);
}

// Sets the text of a member at the place of its name, where there is one.
fn place_text(
    alloc: Global,
    names: &Names,
    texts: &mut Vec<Option<Name>>,
    member: &Member,
) -> Result<(), Memory>
    requires differ { Differ names.now }
    requires long { vec_len texts.old ≡ length names.now }
    ensures long { vec_len texts.new ≡ length names.now }
    ensures placed { (before : List Member) → texts.old.items ≡ map (spec.text_of before) names.now → OnOk result (texts.new.items ≡ map (spec.text_of (before ++ member.now ∷ [])) names.now) }
{
    match names.find(member.key.as_slice()) {
        None => Ok(()),
        Some(place) => {
            let text = List::from_slice(alloc, member.text.as_slice())?;
            set_text(texts, place, text);
            Ok(())
        }
    }
}

// The text of each name, where it has one.
fn texts_of(alloc: Global, names: &Names, step: &[Member]) -> Result<Vec<Option<Name>>, Memory>
    ensures { IfOk result (λ texts. texts.items ≡ map (spec.text_of step.now) names.now) }
{
    names.differ();
    let mut texts = no_texts(alloc, names.len())?;
    for member in step {
        place_text(alloc, names, &mut texts, member)?;
    }
    Ok(texts)
}

// Whether each place has a text.
fn are_all_there(texts: &[Option<Name>]) -> bool
    ensures { result ≡ list_all (λ t. is_some t) texts.now }
{
    for text in texts {
        if text.is_none() {
            return false;
        }
    }
    true
}

// Whether the keys of a step are exactly the names.
fn has_keys(alloc: Global, names: &Names, step: &[Member]) -> Result<bool, Memory>
    ensures { IfOk result (λ b. b ≡ spec.has_keys names.now step.now) }
{
    if !are_among(names, step) {
        return Ok(false);
    }
    let texts = texts_of(alloc, names, step)?;
    Ok(are_all_there(texts.as_slice()))
}

// The text at a place, which is empty where there is none.
fn text_in(text: &Option<Name>) -> &[u8]
    ensures { result.now ≡ unwrap_or text.now [] }
{
    match text {
        Some(text) => text.as_slice(),
        None => &[],
    }
}

// Whether a byte is a bit's.
fn is_bit(byte: u8) -> bool
    ensures { result ≡ spec.is_bit byte }
{
    byte == b'0' || byte == b'1'
}

// Whether all bytes are bits'.
fn are_all_bits(text: &[u8]) -> bool
    ensures { result ≡ list_all spec.is_bit text.now }
{
    for byte in text {
        if !is_bit(*byte) {
            return false;
        }
    }
    true
}

/// Whether a text is so many bits.
pub(crate) fn are_bits(count: usize, text: &[u8]) -> bool
    ensures { result ≡ spec.are_bits count text.now }
{
    text.len() == count && are_all_bits(text)
}

// Whether the texts of inputs are as many bits as these have.
fn are_inputs_bits(inputs: &[Input], texts: &[Option<Name>]) -> bool
    requires { length texts.now ≡ length inputs.now }
    ensures { (step : List Member) → texts.now ≡ map (spec.text_of step) (spec.names_of inputs.now) → result ≡ spec.has_bits inputs.now step }
{
    for (k, input) in inputs.iter().enumerate() {
        if !are_bits(input.width, text_in(&texts[k])) {
            return false;
        }
    }
    true
}

// Whether each input has its bits.
fn has_bits(alloc: Global, wanted: &Wanted, step: &[Member]) -> Result<bool, Memory>
    ensures { IfOk result (λ b. b ≡ spec.has_bits wanted.now.inputs step.now) }
{
    let texts = texts_of(alloc, &wanted.names, step)?;
    Ok(are_inputs_bits(wanted.inputs.as_slice(), texts.as_slice()))
}

/// Whether a cause that is asked for in a step holds there.
pub(crate) fn does_hold(
    alloc: Global,
    wanted: &Wanted,
    cause: StimulusCause,
    step: &[Member],
) -> Result<bool, Memory>
    ensures { IfOk result (λ b. b ≡ spec.step_holds wanted.now.inputs cause step.now) }
{
    match cause {
        StimulusCause::Inputs => Ok(!has_keys(alloc, &wanted.names, step)?),
        StimulusCause::Bits => Ok(!has_bits(alloc, wanted, step)?),
        _ => Ok(false),
    }
}

/// Adds the bits of a text to a row.
pub(crate) fn add_bits(row: &mut BitRow, text: &[u8]) -> Result<(), Memory>
    ensures { OnOk result (row.new ≡ row.old ++ bits_in text.now) }
{
    for byte in text {
        row.push(*byte == b'1')?;
    }
    Ok(())
}

// The row of the texts of inputs.
fn row_of_texts(alloc: Global, inputs: &[Input], texts: &[Option<Name>]) -> Result<BitRow, Memory>
    requires { length texts.now ≡ length inputs.now }
    ensures { (step : List Member) → texts.now ≡ map (spec.text_of step) (spec.names_of inputs.now) → IfOk result (λ row. row ≡ row_spec inputs.now step) }
{
    let mut row = BitRow::new(alloc);
    for text in texts {
        add_bits(&mut row, text_in(text))?;
    }
    Ok(row)
}

/// The row of a step.
pub(crate) fn row_of(alloc: Global, wanted: &Wanted, step: &[Member]) -> Result<BitRow, Memory>
    ensures { IfOk result (λ row. row ≡ row_spec wanted.now.inputs step.now) }
{
    let texts = texts_of(alloc, &wanted.names, step)?;
    row_of_texts(alloc, wanted.inputs.as_slice(), texts.as_slice())
}
