ghost use Rattle.std.specs.Prelude.{◌≡◌, ◌==◌, ◌/◌, ◌%◌, ◌^◌, ◌++◌, replicate, false, IfOk, OnOk};
ghost use Rattle.verilog_tokens.specs.Constants as spec;

use crate::constant::digit_of;
use agm_bits::{List, Memory};
use std::alloc::Global;

// Bit k of a number.
fn bit(number: u128, k: u32) -> bool
    ensures { result ≡ (number / 2 ^ k) % 2 == 1 }
{
    if k < 128 {
        (number >> k) % 2 == 1
    } else {
        false
    }
}

// Adds the lowest bits of a number, so many, from the most significant on.
fn push_low_bits(bits: &mut List<bool>, count: u32, number: u128) -> Result<(), Memory>
    ensures { OnOk result (bits.new ≡ bits.old ++ spec.low_bits count number) }
{
    let mut k = count;
    while k > 0 {
        k -= 1;
        bits.push(bit(number, k))?;
    }
    Ok(())
}

// Adds the bits of a digit that stands for so many bits; `_` stands for none.
fn push_digit(bits: &mut List<bool>, width: u32, digit: u8) -> Result<(), Memory>
    ensures { OnOk result (bits.new ≡ bits.old ++ spec.one_digit width digit) }
{
    if digit == b'_' {
        Ok(())
    } else {
        push_low_bits(bits, width, u128::from(digit_of(digit)))
    }
}

// The bits of digits that stand for so many bits each.
fn digit_bits(alloc: Global, width: u32, digits: &[u8]) -> Result<List<bool>, Memory>
    ensures { IfOk result (λ bits. bits ≡ spec.digit_bits width digits.now) }
{
    let mut bits = List::new(alloc);
    for digit in digits {
        push_digit(&mut bits, width, *digit)?;
    }
    Ok(bits)
}

// Zeros, so many.
fn zeros(alloc: Global, count: usize) -> Result<List<bool>, Memory>
    ensures { IfOk result (λ bits. bits ≡ replicate count false) }
{
    let mut bits = List::new(alloc);
    for _ in 0..count {
        bits.push(false)?;
    }
    Ok(bits)
}

// Bits at a width.
fn fitted(alloc: Global, size: usize, bits: &[bool]) -> Result<List<bool>, Memory>
    ensures { IfOk result (λ f. f ≡ spec.fitted size bits.now) }
{
    let mut fitted = zeros(alloc, size.saturating_sub(bits.len()))?;
    fitted.extend(&bits[bits.len().saturating_sub(size)..])?;
    Ok(fitted)
}

/// The bits of a decimal constant, from the most significant on.
pub fn decimal_bits(alloc: Global, size: u32, value: u128) -> Result<List<bool>, Memory>
    ensures { IfOk result (λ bits. bits ≡ spec.low_bits size value) }
{
    let mut bits = List::new(alloc);
    push_low_bits(&mut bits, size, value)?;
    Ok(bits)
}

/// The bits of a constant of a size whose digits stand for so many bits each, from the most significant on.
pub fn based_bits(alloc: Global, size: u32, width: u32, digits: &[u8]) -> Result<List<bool>, Memory>
    ensures { IfOk result (λ bits. bits ≡ spec.fitted size (spec.digit_bits width digits.now)) }
{
    let bits = digit_bits(alloc, width, digits)?;
    fitted(alloc, size as usize, bits.as_slice())
}
