ghost use Rattle.std.specs.Prelude.{◌≡◌, ◌<◌, ◌+◌, ◌*◌, ℕ, Some, IfOk, length};
ghost use Rattle.agm_net.specs.Loop.{HasNoLoop};
ghost use Rattle.agm_net.specs.Plain.{input_bits as input_bits_of};
ghost use Rattle.agm_net.specs.View.{plain_of};
ghost use Rattle.share_wiring.specs.ReportOf.{streams_of};
ghost use Rattle.stimulus.specs.Fits.{Fits};
ghost use Rattle.shared_tape.specs.Filled.{AreStreams, filled};
ghost use Rattle.shared_tape.specs.Inputs as given;
ghost use Rattle.shared_tape.specs.Rows as spec;
ghost use Rattle.shared_tape.specs.SharedTape.{SharedTape};

use crate::Sharer;
use crate::cycles::cycles;
use crate::inputs::inputs_of;
use crate::secrets::secret_registers;
use agm_bits::{BitRow, List, Memory, Tape};
use agm_net::Net;
use logic_graph::input_bits;
use share_wiring::{Masked, Report};
use std::alloc::Global;
use stimulus::{Stimulus, Stream};

// How many steps each stream has.
fn steps_of(streams: &[Stream]) -> usize
    requires { 0 < length streams.now }
    ensures { (registers width steps : ℕ) → AreStreams registers width steps streams.now → result ≡ steps }
{
    streams[0].steps.len()
}

// The rows of a tape.
fn rows_of(
    alloc: Global,
    sharer: &Sharer,
    report: &Report,
    streams: &[Stream],
    width: usize,
    seed: &[u8; 32],
) -> Result<List<BitRow>, Memory>
    requires order { sharer.now.order ≡ report.now.order }
    requires period { 0 < report.now.period }
    requires turns { report.now.streams ≡ streams_of report.now.balance report.now.period }
    requires wide { width ≡ given.width_of sharer.now.inputs }
    requires streams { AreStreams (length sharer.now.secrets) width sharer.now.steps streams.now }
    ensures { IfOk result (λ rows. rows ≡ spec.tape_rows seed.now report.now sharer.now.secrets sharer.now.inputs (filled (length sharer.now.secrets) width report.now.streams sharer.now.steps streams.now) sharer.now.steps) }
{
    let Some(count) = cycles(report.period, report.streams, sharer.steps) else {
        return Err(Memory);
    };
    let mut rows = List::new(alloc);
    for cycle in 0..count {
        rows.push(sharer.row(alloc, report, streams, width, seed, cycle)?)?;
    }
    Ok(rows)
}

/// The tape of a masked net without its random bits, for a stimulus of the original: shares are drawn from a seed, whose
/// bits of stream 1 sharings take in turn.
///
/// Takes time and memory linear in the size of the tape, times the number of shares.
///
/// # Errors
///
/// `Memory` where memory runs out.
pub fn share_out(
    alloc: Global,
    net: &Net,
    masked: &Masked,
    stimulus: &Stimulus,
    seed: &[u8; 32],
) -> Result<Tape, Memory>
    requires no_loop { HasNoLoop (plain_of net.now) }
    requires fits { Fits (plain_of net.now) (Some masked.now.report.streams) stimulus.now.streams }
    requires period { 0 < masked.now.report.period }
    requires turns { masked.now.report.streams ≡ streams_of masked.now.report.balance masked.now.report.period }
    ensures { IfOk result (λ tape. SharedTape (plain_of net.now) masked.now.report stimulus.now.streams seed.now tape.rows) }
{
    let report = &masked.report;
    let streams = stimulus.streams.as_slice();
    let secrets = secret_registers(alloc, net, report)?;
    let inputs = inputs_of(alloc, net, report)?;
    let width = input_bits(alloc, net)?.len();
    let sharer = Sharer::new(report.order, secrets, inputs, steps_of(streams))?;
    let rows = rows_of(alloc, &sharer, report, streams, width, seed)?;
    Ok(Tape {
        width: sharer.width,
        rows,
    })
}
