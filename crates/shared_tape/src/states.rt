//! Initial states of registers, as a masked net has them.

ghost use Rattle.std.specs.Prelude.{◌≡◌, ◌≤◌, ◌<◌, ◌+◌, ◌*◌, ◌^◌, ◌++◌, ℕ, Bool, cond, List, [], ◌∷◌, true, false, not, length, reverse, count_by, IfOk, OnOk, MatchOption};
ghost use Rattle.share_wiring.specs.Schedule.{chosen as chosen_of};
ghost use Rattle.shared_tape.specs.Rows as spec;
ghost use Rattle.shared_tape.specs.Sharing.{falling_rows, draws_of as draws_from};

use crate::sharing::{draws_of, push_bits, push_falling};
use agm_bits::{BitRow, List, Memory};
use std::alloc::Global;

// Adds a register's value where it is as secret as `kind` says.
fn push_chosen(those: &mut List<bool>, kind: bool, secret: bool, value: bool) -> Result<(), Memory>
    ensures { OnOk result (those.new ≡ those.old ++ cond (cond secret kind (not kind)) (value ∷ []) []) }
{
    if secret == kind {
        those.push(value)?;
    }
    Ok(())
}

// Of each register whether it is secret; the values of those that are as `kind` says.
fn chosen(
    alloc: Global,
    kind: bool,
    secrets: &[bool],
    values: &[bool],
) -> Result<List<bool>, Memory>
    requires { length values.now ≡ length secrets.now }
    ensures { IfOk result (λ those. those ≡ chosen_of kind secrets.now values.now) }
{
    let mut those = List::new(alloc);
    for k in 0..secrets.len() {
        push_chosen(&mut those, kind, secrets[k], values[k])?;
    }
    Ok(those)
}

/// How many registers are secret.
pub(crate) fn secret_count(secrets: &[bool]) -> usize
    ensures { result ≡ spec.secret_count secrets.now }
{
    let mut count = 0;
    for secret in secrets {
        if *secret {
            count += 1;
        }
    }
    count
}

// How many registers are public.
fn public_count(secrets: &[bool]) -> usize
    ensures { result ≡ count_by not secrets.now }
{
    let mut count = 0;
    for secret in secrets {
        if !*secret {
            count += 1;
        }
    }
    count
}

/// How many bits a masked net has for an initial state, None where it is no number.
pub(crate) fn state_width(order: usize, secrets: &[bool]) -> Option<usize>
    requires { order < 2 ^ 32 }
    ensures { MatchOption result (2 ^ 64 ≤ spec.state_width order secrets.now) (λ n. n ≡ spec.state_width order secrets.now) }
{
    let count = secret_count(secrets);
    match (order + 1).checked_mul(count) {
        Some(shared) => shared.checked_add(public_count(secrets)),
        None => None,
    }
}

// The values of public registers, the last first.
fn publics(alloc: Global, secrets: &[bool], values: &[bool]) -> Result<List<bool>, Memory>
    requires { length values.now ≡ length secrets.now }
    ensures { IfOk result (λ those. those ≡ reverse (chosen_of false secrets.now values.now)) }
{
    let mut those = chosen(alloc, false, secrets, values)?.into_vec();
    those.reverse();
    Ok(List::from_vec(those))
}

// Adds the shares of the values of secret registers in the initial state of stream `stream`.
fn push_secrets(
    alloc: Global,
    row: &mut BitRow,
    seed: &[u8; 32],
    order: usize,
    values: &[bool],
    stream: usize,
) -> Result<(), Memory>
    requires { order < 2 ^ 32 }
    ensures { OnOk result (row.new ≡ row.old ++ falling_rows (draws_from seed.now order (stream * length values.now) (length values.now)) order 0 values.now) }
{
    let first = (stream as u128).wrapping_mul(values.len() as u128);
    let draws = draws_of(alloc, seed, order, first, values.len())?;
    push_falling(alloc, row, draws.as_slice(), order, values)
}

/// Adds what a masked net has for the initial state of stream `stream`. After `Memory` some may have been added.
pub(crate) fn push_state(
    alloc: Global,
    row: &mut BitRow,
    seed: &[u8; 32],
    order: usize,
    secrets: &[bool],
    initial: &[bool],
    stream: usize,
) -> Result<(), Memory>
    requires wide { length initial.now ≡ length secrets.now }
    requires low { order < 2 ^ 32 }
    ensures { OnOk result (row.new ≡ row.old ++ spec.state_row seed.now order secrets.now initial.now stream) }
{
    let publics = publics(alloc, secrets, initial)?;
    push_bits(row, publics.as_slice())?;
    let shared = chosen(alloc, true, secrets, initial)?;
    push_secrets(alloc, row, seed, order, shared.as_slice(), stream)
}
