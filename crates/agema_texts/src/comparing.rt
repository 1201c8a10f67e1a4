//! An original and its masked net side by side, as it is printed.

ghost use Rattle.std.specs.Prelude.{◌≤◌, Some, IfOk, IfErr, length};
ghost use Rattle.agm_net.specs.View.{plain_of};
ghost use Rattle.stimulus.specs.Fits.{Fits};
ghost use Rattle.side_by_side.specs.Beside.{AreColumns};
ghost use Rattle.agema_texts.specs.Comparing.{AreLines, CanRun, IsCompared};
ghost use Rattle.agema_texts.specs.Original.{EndsBy, length_limit};
ghost use Rattle.agema_texts.specs.Sims.{IsBadStimulus};

use crate::masked::MaskedOriginal;
use crate::simulation::stimulus_of;
use agema_answers::Ended;
use agm_bits::{List, Memory, Name};
use cycle_sim::SimFault;
use side_by_side::{Pair, columns, columns_text};
use std::alloc::Global;
use stimulus::Stimulus;

// The columns of two nets without a loop.
fn pairs_of(
    alloc: Global,
    made: &MaskedOriginal,
    stimulus: &Stimulus,
    seed: &[u8; 32],
) -> Result<List<Pair>, Memory>
    requires runs { CanRun (plain_of made.now.original) (plain_of made.now.masked.net) made.now.masked.report }
    requires fits { Fits (plain_of made.now.original) (Some made.now.masked.report.streams) stimulus.now.streams }
    ensures { IfOk result (AreColumns (plain_of made.now.original) made.now.masked.report (plain_of made.now.masked.net) stimulus.now.streams seed.now) }
{
    match columns(alloc, &made.original, &made.masked, stimulus, seed) {
        Ok(pairs) => Ok(pairs),
        Err(SimFault::Memory) => Err(Memory),
        Err(SimFault::Loop { wires: _ }) => unreachable!(),
    }
}

// Their lines.
fn lines_of(
    alloc: Global,
    made: &MaskedOriginal,
    stimulus: &Stimulus,
    seed: &[u8; 32],
) -> Result<Name, Memory>
    requires runs { CanRun (plain_of made.now.original) (plain_of made.now.masked.net) made.now.masked.report }
    requires fits { Fits (plain_of made.now.original) (Some made.now.masked.report.streams) stimulus.now.streams }
    ensures { IfOk result (AreLines (plain_of made.now.original) made.now.masked.report (plain_of made.now.masked.net) stimulus.now.streams seed.now) }
{
    let pairs = pairs_of(alloc, made, stimulus, seed)?;
    columns_text(alloc, &made.original, pairs.as_slice())
}

/// The lines of an original and its masked net side by side, with the stimulus of a text, and with shares and random bits
/// that are drawn from a seed.
///
/// # Errors
///
/// `Refused` where the text is no stimulus of the original, or has more streams than are in flight in the masked net, and
/// `Memory` where memory runs out.
pub fn compared(
    alloc: Global,
    made: &MaskedOriginal,
    text: &[u8],
    seed: &[u8; 32],
) -> Result<Name, Ended>
    requires runs { CanRun (plain_of made.now.original) (plain_of made.now.masked.net) made.now.masked.report }
    requires short { length text.now ≤ length_limit }
    ensures ok { IfOk result (IsCompared (plain_of made.now.original) made.now.masked.report (plain_of made.now.masked.net) text.now seed.now) }
    ensures err { IfErr result (EndsBy (IsBadStimulus (plain_of made.now.original) (Some made.now.masked.report.streams) text.now)) }
{
    let streams = Some(made.masked.report.streams);
    let stimulus = stimulus_of(alloc, &made.original, streams, text)?;
    match lines_of(alloc, made, &stimulus, seed) {
        Ok(lines) => Ok(lines),
        Err(_) => Err(Ended::Memory),
    }
}
