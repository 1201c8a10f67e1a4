//! Shares of values.

ghost use Rattle.std.specs.Prelude.{◌≡◌, ◌≤◌, ◌<◌, ◌+◌, ◌*◌, ◌++◌, ◌%◌, ◌^◌, ℕ, length, reverse, IfOk, OnOk};
ghost use Rattle.agm_net.specs.Formula.{xor};
ghost use Rattle.share_wiring.specs.Recombine.{xor_below};
ghost use Rattle.shared_tape.specs.Sharing as spec;

use agm_bits::{BitRow, List, Memory};
use random_draws::RandomBits;
use std::alloc::Global;

/// The bits of a row.
pub(crate) fn bits_of(alloc: Global, row: &BitRow) -> Result<List<bool>, Memory>
    ensures { IfOk result (λ bits. bits ≡ row.now) }
{
    let mut bits = List::new(alloc);
    for k in 0..row.len() {
        bits.push(row.get(k))?;
    }
    Ok(bits)
}

/// Adds bits to a row. After `Memory` some may have been added.
pub(crate) fn push_bits(row: &mut BitRow, bits: &[bool]) -> Result<(), Memory>
    ensures { OnOk result (row.new ≡ row.old ++ bits.now) }
{
    for bit in bits {
        row.push(*bit)?;
    }
    Ok(())
}

/// Draws so many sharings, the first of which has this number.
pub(crate) fn draws_of(
    alloc: Global,
    seed: &[u8; 32],
    order: usize,
    first: u128,
    count: usize,
) -> Result<List<bool>, Memory>
    ensures long { IfOk result (λ draws. length draws ≡ count * order) }
    ensures draws { (n : ℕ) → first ≡ n % 2 ^ 128 → IfOk result (λ draws. draws ≡ spec.draws_of seed.now order n count) }
{
    let Some(width) = count.checked_mul(order) else {
        return Err(Memory);
    };
    let mut bits = RandomBits::new(seed, 1, first.wrapping_mul(order as u128));
    let row = bits.row(alloc, width)?;
    let draws = bits_of(alloc, &row)?;
    Ok(draws)
}

// Draw j of sharing b.
fn drawn(draws: &[bool], order: usize, b: usize, j: usize) -> bool
    requires { b * order + j < length draws.now }
    ensures { result ≡ spec.drawn draws.now order b j }
{
    draws[b * order + j]
}

// What all draws of sharing b recombine to.
fn drawn_sum(draws: &[bool], order: usize, b: usize) -> bool
    requires { b * order + order ≤ length draws.now }
    ensures { result ≡ xor_below order (spec.drawn draws.now order b) }
{
    let mut sum = false;
    for j in 0..order {
        sum = sum != drawn(draws, order, b, j);
    }
    sum
}

// Share i of a value by sharing b.
fn share_bit(draws: &[bool], order: usize, b: usize, value: bool, i: usize) -> bool
    requires { b * order + order ≤ length draws.now }
    ensures { result ≡ spec.share_bit draws.now order b value i }
{
    if i < order {
        drawn(draws, order, b, i)
    } else {
        value != drawn_sum(draws, order, b)
    }
}

// Share i of values, by the sharings from one on.
fn share_row(
    alloc: Global,
    draws: &[bool],
    order: usize,
    first: usize,
    values: &[bool],
    i: usize,
) -> Result<List<bool>, Memory>
    requires drawn { (first + length values.now) * order ≤ length draws.now }
    requires counted { first + length values.now < 2 ^ 64 }
    ensures { IfOk result (λ shares. shares ≡ spec.share_row draws.now order first values.now i) }
{
    let mut shares = List::new(alloc);
    for b in 0..values.len() {
        shares.push(share_bit(draws, order, first + b, values[b], i))?;
    }
    Ok(shares)
}

/// Adds all shares of values, by the sharings from one on: share 0 of each value, then share 1 of each, and so on. After
/// `Memory` some may have been added.
pub(crate) fn push_shares(
    alloc: Global,
    row: &mut BitRow,
    draws: &[bool],
    order: usize,
    first: usize,
    values: &[bool],
) -> Result<(), Memory>
    requires drawn { (first + length values.now) * order ≤ length draws.now }
    requires counted { first + length values.now < 2 ^ 64 }
    requires low { order < 2 ^ 32 }
    ensures { OnOk result (row.new ≡ row.old ++ spec.share_rows draws.now order first values.now) }
{
    for i in 0..order + 1 {
        let shares = share_row(alloc, draws, order, first, values, i)?;
        push_bits(row, shares.as_slice())?;
    }
    Ok(())
}

// Share i of values, the last value first.
fn falling_row(
    alloc: Global,
    draws: &[bool],
    order: usize,
    values: &[bool],
    i: usize,
) -> Result<List<bool>, Memory>
    requires { length values.now * order ≤ length draws.now }
    ensures { IfOk result (λ shares. shares ≡ reverse (spec.share_row draws.now order 0 values.now i)) }
{
    let mut shares = share_row(alloc, draws, order, 0, values, i)?.into_vec();
    shares.reverse();
    Ok(List::from_vec(shares))
}

/// Adds all shares of values, by the sharings from the first on, each share with the last value first.
pub(crate) fn push_falling(
    alloc: Global,
    row: &mut BitRow,
    draws: &[bool],
    order: usize,
    values: &[bool],
) -> Result<(), Memory>
    requires drawn { length values.now * order ≤ length draws.now }
    requires low { order < 2 ^ 32 }
    ensures { OnOk result (row.new ≡ row.old ++ spec.falling_rows draws.now order 0 values.now) }
{
    for i in 0..order + 1 {
        let shares = falling_row(alloc, draws, order, values, i)?;
        push_bits(row, shares.as_slice())?;
    }
    Ok(())
}
