//! What each cycle of a tape holds.

ghost use Rattle.std.specs.Prelude.{◌≡◌, ◌≤◌, ◌<◌, ◌^◌, ◌*◌, MatchOption};
ghost use Rattle.shared_tape.specs.Cycles as spec;

use share_wiring::Balance;

/// The stream whose inputs stand in a cycle.
pub(crate) fn stream_in(balance: Balance, period: usize, cycle: usize) -> usize
    requires { (0 < period) × (0 < cycle) }
    ensures { result ≡ spec.stream_in balance period cycle }
{
    match balance {
        Balance::Pipe => (cycle - 1) % period,
        Balance::Gate => 0,
    }
}

/// The step whose inputs stand in a cycle.
pub(crate) fn step_in(period: usize, cycle: usize) -> usize
    requires { (0 < period) × (0 < cycle) }
    ensures { result ≡ spec.step_in period cycle }
{
    (cycle - 1) / period
}

/// Whether the inputs of some step stand in a cycle.
pub(crate) fn has_inputs(period: usize, steps: usize, cycle: usize) -> bool
    requires { 0 < period }
    ensures { result ≡ spec.has_inputs period steps cycle }
{
    0 < cycle && step_in(period, cycle) < steps
}

/// How many cycles there are, None where it is no number.
pub(crate) fn cycles(period: usize, streams: usize, steps: usize) -> Option<usize>
    ensures { MatchOption result (2 ^ 64 ≤ spec.cycles period streams steps) (λ n. n ≡ spec.cycles period streams steps) }
{
    match period.checked_mul(steps) {
        Some(held) => held.checked_add(streams),
        None => None,
    }
}
