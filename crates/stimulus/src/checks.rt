//! The causes, each in all streams and steps.

ghost use Rattle.std.specs.Prelude.{◌≡◌, ◌∷◌, [], map, length};
ghost use Rattle.std.specs.List.{enumerate_from};
ghost use Rattle.stimulus.specs.Asked as spec;
ghost use Rattle.stimulus.specs.Answer.{Passes};

use crate::inputs::Wanted;
use crate::steps::{are_bits, does_hold};
use crate::texts::{Member, StreamText};
use crate::{StimulusCause, StimulusFault};
use agm_bits::List;
use std::alloc::Global;

/// A cause in the steps of a stream.
pub(crate) fn check_steps(
    alloc: Global,
    wanted: &Wanted,
    cause: StimulusCause,
    stream: usize,
    steps: &[List<Member>],
) -> Result<(), StimulusFault>
    ensures { Passes (map (spec.asked_step wanted.now.inputs cause stream) (enumerate_from 0 steps.now)) (λ _. Unit {0}) result }
{
    for (step, members) in steps.iter().enumerate() {
        if does_hold(alloc, wanted, cause, members.as_slice())? {
            return Err(StimulusFault::Bad {
                cause,
                stream,
                step,
            });
        }
    }
    Ok(())
}

// Whether a cause that is asked for in a stream holds there.
fn does_hold_in(registers: usize, first: usize, cause: StimulusCause, text: &StreamText) -> bool
    ensures { result ≡ spec.stream_holds registers first cause text.now }
{
    match cause {
        StimulusCause::Steps => text.steps.len() == 0 || text.steps.len() != first,
        StimulusCause::Initial => !are_bits(registers, text.initial.as_slice()),
        _ => false,
    }
}

// A cause in a stream alone.
fn check_whole(
    registers: usize,
    first: usize,
    cause: StimulusCause,
    stream: usize,
    text: &StreamText,
) -> Result<(), StimulusFault>
    ensures { Passes (spec.asked_whole registers first cause (stream, text.now) ∷ []) (λ _. Unit {0}) result }
{
    if does_hold_in(registers, first, cause, text) {
        return Err(StimulusFault::Bad {
            cause,
            stream,
            step: 0,
        });
    }
    Ok(())
}

// A cause in a stream, and in its steps.
fn check_stream(
    alloc: Global,
    wanted: &Wanted,
    first: usize,
    cause: StimulusCause,
    stream: usize,
    text: &StreamText,
) -> Result<(), StimulusFault>
    ensures { Passes (spec.asked_in wanted.now.registers wanted.now.inputs first cause (stream, text.now)) (λ _. Unit {0}) result }
{
    match cause {
        StimulusCause::Inputs | StimulusCause::Bits => {
            check_steps(alloc, wanted, cause, stream, text.steps.as_slice())
        }
        _ => check_whole(wanted.registers, first, cause, stream, text),
    }
}

// How many steps stream 0 has.
fn first_steps(texts: &[StreamText]) -> usize
    ensures { result ≡ spec.first_steps texts.now }
{
    match texts {
        [] => 0,
        [first, ..] => first.steps.len(),
    }
}

// A cause in all streams.
fn check_cause(
    alloc: Global,
    wanted: &Wanted,
    cause: StimulusCause,
    texts: &[StreamText],
) -> Result<(), StimulusFault>
    ensures { Passes (spec.asked_of wanted.now.registers wanted.now.inputs texts.now cause) (λ _. Unit {0}) result }
{
    let first = first_steps(texts);
    for (stream, text) in texts.iter().enumerate() {
        check_stream(alloc, wanted, first, cause, stream, text)?;
    }
    Ok(())
}

// The number of streams.
fn check_count(limit: Option<usize>, texts: &[StreamText]) -> Result<(), StimulusFault>
    ensures { Passes (spec.streams_asked limit texts.now ∷ []) (λ _. Unit {0}) result }
{
    let is_above = match limit {
        Some(most) => most < texts.len(),
        None => false,
    };
    if texts.len() == 0 || is_above {
        return Err(StimulusFault::Bad {
            cause: StimulusCause::Streams,
            stream: 0,
            step: 0,
        });
    }
    Ok(())
}

/// All causes, in their order.
pub(crate) fn check_texts(
    alloc: Global,
    wanted: &Wanted,
    limit: Option<usize>,
    texts: &[StreamText],
) -> Result<(), StimulusFault>
    ensures { Passes (spec.all_asked wanted.now.registers wanted.now.inputs limit texts.now) (λ _. Unit {0}) result }
{
    check_count(limit, texts)?;
    check_cause(alloc, wanted, StimulusCause::Steps, texts)?;
    check_cause(alloc, wanted, StimulusCause::Initial, texts)?;
    check_cause(alloc, wanted, StimulusCause::Inputs, texts)?;
    check_cause(alloc, wanted, StimulusCause::Bits, texts)
}
