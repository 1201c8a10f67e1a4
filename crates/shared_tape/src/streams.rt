//! A stimulus with the streams that it lacks.

ghost use Rattle.std.specs.Prelude.{◌≡◌, ◌<◌, ℕ, All, IfOk, length};
ghost use Rattle.agm_net.specs.Trace.{row_at};
ghost use Rattle.share_wiring.specs.Schedule.{stream_at};
ghost use Rattle.shared_tape.specs.Filled as spec;

use crate::sharing::bits_of;
use agm_bits::{List, Memory};
use std::alloc::Global;
use stimulus::Stream;

// So many zeros.
fn zeros(alloc: Global, count: usize) -> Result<List<bool>, Memory>
    ensures { IfOk result (λ bits. bits ≡ spec.zeros count) }
{
    Ok(List::from_vec(vec![in alloc; false; count]?))
}

/// The initial state of a stream, which may be missing.
pub(crate) fn initial_of(
    alloc: Global,
    streams: &[Stream],
    stream: usize,
    registers: usize,
) -> Result<List<bool>, Memory>
    requires { All (λ s. length s.initial ≡ registers) streams.now }
    ensures wide { IfOk result (λ bits. length bits ≡ registers) }
    ensures state { (width count steps : ℕ) → stream < count → IfOk result (λ bits. bits ≡ (stream_at (spec.filled registers width count steps streams.now) stream).initial) }
{
    if stream < streams.len() {
        bits_of(alloc, &streams[stream].initial)
    } else {
        zeros(alloc, registers)
    }
}

/// The input bits of a step of a stream, which may be missing.
pub(crate) fn step_of(
    alloc: Global,
    streams: &[Stream],
    stream: usize,
    step: usize,
    width: usize,
) -> Result<List<bool>, Memory>
    requires { All (λ s. (step < length s.steps) × All (λ row. length row ≡ width) s.steps) streams.now }
    ensures wide { IfOk result (λ bits. length bits ≡ width) }
    ensures row { (registers count steps : ℕ) → stream < count → step < steps → IfOk result (λ bits. bits ≡ row_at (stream_at (spec.filled registers width count steps streams.now) stream).steps step) }
{
    if stream < streams.len() {
        bits_of(alloc, &streams[stream].steps.as_slice()[step])
    } else {
        zeros(alloc, width)
    }
}
