//! The rows of a tape, one at a time.

ghost use Rattle.std.specs.Prelude.{◌≡◌, ◌<◌, ◌≤◌, ◌+◌, ◌*◌, ◌%◌, ◌++◌, ◌∷◌, ◌^◌, [], ℕ, IfOk, OnOk, MatchOption, All, length};
ghost use Rattle.share_wiring.specs.ReportOf.{streams_of};
ghost use Rattle.shared_tape.specs.Filled.{filled, zeros as zeros_of, AreStreams};
ghost use Rattle.shared_tape.specs.Inputs as given;
ghost use Rattle.shared_tape.specs.Rows as spec;
ghost use Rattle.shared_tape.specs.Cycles.{cycles as cycles_of};

use crate::cycles::{cycles, has_inputs, step_in, stream_in};
use crate::inputs::{Input, inputs_width, push_inputs, sharings};
use crate::sharing::draws_of;
use crate::states::{push_state, secret_count, state_width};
use crate::streams::{initial_of, step_of};
use agm_bits::{BitRow, List, Memory};
use share_wiring::Report;
use std::alloc::Global;
use stimulus::Stream;

// Adds zeros.
fn push_zeros(row: &mut BitRow, count: usize) -> Result<(), Memory>
    ensures { OnOk result (row.new ≡ row.old ++ zeros_of count) }
{
    for _ in 0..count {
        row.push(false)?;
    }
    Ok(())
}

// How many bits a row has, None where it is no number.
fn row_width(state: usize, inputs: usize) -> Option<usize>
    ensures { MatchOption result (2 ^ 64 ≤ 1 + (state + inputs)) (λ n. n ≡ 1 + (state + inputs)) }
{
    match state.checked_add(inputs) {
        Some(sum) => sum.checked_add(1),
        None => None,
    }
}

/// What the rows of a tape have in common.
#[derive(Debug, Drop)]
pub struct Sharer {
    /// One for each register of the original: whether it is secret.
    pub secrets: List<bool>,
    /// The original's input ports.
    pub inputs: List<Input>,
    /// The number of steps of each stream.
    pub steps: usize,
    /// The number of bits of a row.
    pub width: usize,
    order: usize,
    // How many bits of an initial state are shared, and of a step.
    secret_count: usize,
    sharings: usize,
    // How many bits of a row are those of an initial state, and of a step.
    state_width: usize,
    inputs_width: usize,
    ghost low: { order < 2 ^ 32 },
    ghost secret: { secret_count ≡ spec.secret_count secrets },
    ghost shared: { sharings ≡ given.sharings inputs },
    ghost wide: { state_width ≡ spec.state_width order secrets },
    ghost rows_wide: { width ≡ spec.tape_width order secrets inputs },
    ghost inputs_wide: { inputs_width ≡ given.inputs_width order inputs },
}

impl Sharer {
    /// What the rows of a tape have in common, where these registers are secret, for so many steps in each stream.
    pub fn new(
        order: u32,
        secrets: List<bool>,
        inputs: List<Input>,
        steps: usize,
    ) -> Result<Sharer, Memory>
        ensures { IfOk result (λ it. (it.secrets ≡ secrets) × (it.inputs ≡ inputs) × (it.steps ≡ steps) × (it.order ≡ order)) }
    {
        let order = order as usize;
        let secret_count = secret_count(secrets.as_slice());
        let Some(sharings) = sharings(inputs.as_slice()) else {
            return Err(Memory);
        };
        let Some(state_width) = state_width(order, secrets.as_slice()) else {
            return Err(Memory);
        };
        let Some(inputs_width) = inputs_width(order, inputs.as_slice()) else {
            return Err(Memory);
        };
        let Some(width) = row_width(state_width, inputs_width) else {
            return Err(Memory);
        };
        Ok(Sharer {
            secrets,
            inputs,
            steps,
            width,
            order,
            secret_count,
            sharings,
            state_width,
            inputs_width,
        })
    }

    // The number of the first sharing of the inputs in a cycle.
    fn place(&self, report: &Report, cycle: usize) -> u128
        requires { (0 < report.now.period) × (0 < cycle) }
        ensures { result ≡ (report.now.streams * spec.secret_count self.now.secrets + spec.turn_in report.now cycle * given.sharings self.now.inputs) % 2 ^ 128 }
    {
        let streams = report.streams as u128;
        let step = step_in(report.period, cycle) as u128;
        let stream = stream_in(report.balance, report.period, cycle) as u128;
        let turn = step.wrapping_mul(streams).wrapping_add(stream);
        streams
            .wrapping_mul(self.secret_count as u128)
            .wrapping_add(turn.wrapping_mul(self.sharings as u128))
    }

    // Adds what the ports for the initial state have in a cycle.
    fn push_state(
        &self,
        alloc: Global,
        row: &mut BitRow,
        report: &Report,
        streams: &[Stream],
        seed: &[u8; 32],
        cycle: usize,
    ) -> Result<(), Memory>
        requires order { self.now.order ≡ report.now.order }
        requires streams { All (λ s. length s.initial ≡ length self.now.secrets) streams.now }
        ensures { (width : ℕ) → OnOk result (row.new ≡ row.old ++ spec.state_part seed.now report.now self.now.secrets (filled (length self.now.secrets) width report.now.streams self.now.steps streams.now) cycle) }
    {
        if cycle < report.streams {
            let initial = initial_of(alloc, streams, cycle, self.secrets.len())?;
            push_state(
                alloc,
                row,
                seed,
                self.order,
                self.secrets.as_slice(),
                initial.as_slice(),
                cycle,
            )
        } else {
            push_zeros(row, self.state_width)
        }
    }

    // Adds what the ports for the original's inputs have in a cycle.
    fn push_inputs(
        &self,
        alloc: Global,
        row: &mut BitRow,
        report: &Report,
        streams: &[Stream],
        width: usize,
        seed: &[u8; 32],
        cycle: usize,
    ) -> Result<(), Memory>
        requires order { self.now.order ≡ report.now.order }
        requires period { 0 < report.now.period }
        requires turns { report.now.streams ≡ streams_of report.now.balance report.now.period }
        requires wide { width ≡ given.width_of self.now.inputs }
        requires streams { AreStreams (length self.now.secrets) width self.now.steps streams.now }
        ensures { OnOk result (row.new ≡ row.old ++ spec.inputs_part seed.now report.now self.now.secrets self.now.inputs (filled (length self.now.secrets) width report.now.streams self.now.steps streams.now) self.now.steps cycle) }
    {
        if has_inputs(report.period, self.steps, cycle) {
            let stream = stream_in(report.balance, report.period, cycle);
            let step = step_in(report.period, cycle);
            let values = step_of(alloc, streams, stream, step, width)?;
            let first = self.place(report, cycle);
            let draws = draws_of(alloc, seed, self.order, first, self.sharings)?;
            push_inputs(
                alloc,
                row,
                draws.as_slice(),
                self.order,
                self.inputs.as_slice(),
                values.as_slice(),
            )
        } else {
            push_zeros(row, self.inputs_width)
        }
    }

    /// The row of a cycle, by the streams of a stimulus and the draws of a seed.
    pub fn row(
        &self,
        alloc: Global,
        report: &Report,
        streams: &[Stream],
        width: usize,
        seed: &[u8; 32],
        cycle: usize,
    ) -> Result<BitRow, Memory>
        requires order { self.now.order ≡ report.now.order }
        requires period { 0 < report.now.period }
        requires turns { report.now.streams ≡ streams_of report.now.balance report.now.period }
        requires wide { width ≡ given.width_of self.now.inputs }
        requires streams { AreStreams (length self.now.secrets) width self.now.steps streams.now }
        ensures { IfOk result (λ row. row ≡ spec.tape_row seed.now report.now self.now.secrets self.now.inputs (filled (length self.now.secrets) width report.now.streams self.now.steps streams.now) self.now.steps cycle) }
    {
        let mut row = BitRow::new(alloc);
        row.push(cycle < report.streams)?;
        self.push_state(alloc, &mut row, report, streams, seed, cycle)?;
        self.push_inputs(alloc, &mut row, report, streams, width, seed, cycle)?;
        Ok(row)
    }
}
