ghost use Rattle.std.specs.Prelude.{◌≡◌, IfOk, map};
ghost use Rattle.stimulus.specs.Answer as spec;

use crate::inputs::Wanted;
use crate::steps::{add_bits, row_of};
use crate::texts::{Member, StreamText};
use agm_bits::{BitRow, List, Memory};
use std::alloc::Global;

/// One run of a net.
#[derive(Debug, Drop)]
pub struct Stream {
    /// A bit for each register of the net, in its order: its power-up contents.
    pub initial: BitRow,
    /// A row for each cycle. It has the net's input bits: those of the input ports in port order, each from the most
    /// significant, without the clock's.
    pub steps: List<BitRow>,
}

/// What a net is driven with: one or more runs of equally many cycles.
#[derive(Debug, Drop)]
pub struct Stimulus {
    pub streams: List<Stream>,
}

/// The rows of steps.
pub(crate) fn rows_of(
    alloc: Global,
    wanted: &Wanted,
    steps: &[List<Member>],
) -> Result<List<BitRow>, Memory>
    ensures { IfOk result (λ rows. rows ≡ map (spec.row_of wanted.now.inputs) steps.now) }
{
    let mut rows = List::new(alloc);
    for step in steps {
        rows.push(row_of(alloc, wanted, step.as_slice())?)?;
    }
    Ok(rows)
}

// The stream of a text.
fn stream_of(alloc: Global, wanted: &Wanted, text: &StreamText) -> Result<Stream, Memory>
    ensures { IfOk result (λ stream. stream ≡ spec.stream_of wanted.now.inputs text.now) }
{
    let mut initial = BitRow::new(alloc);
    add_bits(&mut initial, text.initial.as_slice())?;
    let steps = rows_of(alloc, wanted, text.steps.as_slice())?;
    Ok(Stream { initial, steps })
}

/// The streams of texts.
pub(crate) fn streams_of(
    alloc: Global,
    wanted: &Wanted,
    texts: &[StreamText],
) -> Result<List<Stream>, Memory>
    ensures { IfOk result (λ streams. streams ≡ map (spec.stream_of wanted.now.inputs) texts.now) }
{
    let mut streams = List::new(alloc);
    for text in texts {
        streams.push(stream_of(alloc, wanted, text)?)?;
    }
    Ok(streams)
}
