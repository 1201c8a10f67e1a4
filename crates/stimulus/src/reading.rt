ghost use Rattle.std.specs.Prelude.{◌≡◌, ◌⊎◌, IfOk, IfErr, length, map, Err, Some, None};
ghost use Rattle.agm_net.specs.View.{plain_of};
ghost use Rattle.stimulus.specs.Answer.{Answers, Passes, stream_of};
ghost use Rattle.stimulus.specs.Asked.{all_asked, inputs_of};
ghost use Rattle.stimulus.specs.declared.fault.StimulusFault.TheVariants as fault;
ghost use Rattle.serde_json.specs.View.{view};
ghost use Rattle.stimulus.specs.Fits.{Fits};
ghost use Rattle.json_values.specs.Json.{json_of};

use crate::checks::check_texts;
use crate::inputs::wanted_of;
use crate::stimuli::streams_of;
use crate::texts::{StreamText, read_texts};
use crate::{Stimulus, StimulusCause, StimulusFault};
use agm_net::Net;
use json_values::{JsonFault, json_value};
use serde_json::Value;
use std::alloc::Global;

/// The fault of a cause in no stream.
pub(crate) fn bad(cause: StimulusCause) -> StimulusFault
    ensures { result ≡ fault.Bad cause 0 0 }
{
    StimulusFault::Bad {
        cause,
        stream: 0,
        step: 0,
    }
}

// The stimulus of texts.
fn stimulus_of(
    alloc: Global,
    net: &Net,
    clock: Option<usize>,
    streams: Option<usize>,
    texts: &[StreamText],
) -> Result<Stimulus, StimulusFault>
    requires { clock ≡ net.now.clock }
    ensures passes { Passes (all_asked (length net.now.registers) (inputs_of (plain_of net.now)) streams texts.now) (λ stimulus. stimulus.streams ≡ map (stream_of (inputs_of (plain_of net.now))) texts.now) result }
    ensures fits { IfOk result (λ stimulus. Fits (plain_of net.now) streams stimulus.streams) }
{
    let wanted = wanted_of(alloc, net, clock)?;
    check_texts(alloc, &wanted, streams, texts)?;
    Ok(Stimulus {
        streams: streams_of(alloc, &wanted, texts)?,
    })
}

// The stimulus of a JSON value.
fn stimulus_in(
    alloc: Global,
    net: &Net,
    clock: Option<usize>,
    streams: Option<usize>,
    value: &Value,
) -> Result<Stimulus, StimulusFault>
    requires { clock ≡ net.now.clock }
    ensures answers { Answers (plain_of net.now) streams (Some (view value.now)) result }
    ensures fits { IfOk result (λ stimulus. Fits (plain_of net.now) streams stimulus.streams) }
{
    let read = read_texts(alloc, value)?;
    match read {
        Some(texts) => stimulus_of(alloc, net, clock, streams, texts.as_slice()),
        None => Err(bad(StimulusCause::Shape)),
    }
}

/// Reads a stimulus of a net: `{"streams":[{"initial":"01","steps":[{"x":"1","y":"0"}]}]}`. Character k of `initial` is that
/// of register k. A step maps the name of each input port but the clock's to its bits, most significant first. `streams` is
/// the greatest number of streams that is allowed, if any, and `clock` is the net's clock.
///
/// A row of the answer has the net's input bits as `logic_graph::input_bits` lists them, without the clock's.
///
/// Takes near linear time and memory in the number of bytes, times the number of input ports where steps lack some.
///
/// # Errors
///
/// The first cause that holds, each one looked for in all streams and steps before the next; or `Memory`.
pub fn read_stimulus(
    alloc: Global,
    bytes: &[u8],
    net: &Net,
    clock: Option<usize>,
    streams: Option<usize>,
) -> Result<Stimulus, StimulusFault>
    requires { clock ≡ net.now.clock }
    ensures answers { Answers (plain_of net.now) streams (json_of bytes.now) result }
    ensures fits { IfOk result (λ stimulus. Fits (plain_of net.now) streams stimulus.streams) }
{
    match json_value(alloc, bytes) {
        Ok(value) => stimulus_in(alloc, net, clock, streams, &value),
        Err(JsonFault::NoJson) => Err(bad(StimulusCause::Json)),
        Err(JsonFault::Memory) => Err(StimulusFault::Memory),
    }
}
