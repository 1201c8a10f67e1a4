ghost use Rattle.std.specs.Prelude.{◌≡◌, ◌≤◌, ◌+◌, ◌-◌, ◌*◌, ◌^◌, take, MatchOption};
ghost use Rattle.small_text.specs.Bytes.{number_of};
ghost use Rattle.small_text.specs.First.{run};
ghost use Rattle.verilog_tokens.specs.Constants as spec;
ghost use Rattle.verilog_tokens.specs.First.{begins_digit as spec_begins_digit};

use crate::bytes::is_digit;

/// The base of a constant's digits.
#[derive(Clone, Copy, Debug, PartialEq, Eq)]
pub enum Base {
    Binary,
    Octal,
    Decimal,
    Hexadecimal,
}

// The base that a letter names.
pub(crate) fn base_of(b: u8) -> Option<Base>
    ensures { result ≡ spec.base_of b }
{
    if b == b'b' || b == b'B' {
        Some(Base::Binary)
    } else if b == b'o' || b == b'O' {
        Some(Base::Octal)
    } else if b == b'd' || b == b'D' {
        Some(Base::Decimal)
    } else if b == b'h' || b == b'H' {
        Some(Base::Hexadecimal)
    } else {
        None
    }
}

// The value of a digit, 16 for a byte that is no digit of any base.
pub(crate) fn digit_of(b: u8) -> u8
    ensures { result ≡ spec.digit_of b }
{
    if is_digit(b) {
        b - b'0'
    } else if b'a' <= b && b <= b'f' {
        b - 87
    } else if b'A' <= b && b <= b'F' {
        b - 55
    } else {
        16
    }
}

// How many digits a base has.
fn radix(base: Base) -> u8
    ensures { result ≡ spec.radix base }
{
    match base {
        Base::Binary => 2,
        Base::Octal => 8,
        Base::Decimal => 10,
        Base::Hexadecimal => 16,
    }
}

// Whether a byte is a digit of the base.
fn is_digit_of(base: Base, b: u8) -> bool
    ensures { result ≡ spec.is_digit_of base b }
{
    digit_of(b) < radix(base)
}

// Whether a byte is a digit of the base or `_`.
fn is_digit_or_rule(base: Base, b: u8) -> bool
    ensures { result ≡ spec.is_digit_or_rule base b }
{
    b == b'_' || is_digit_of(base, b)
}

// Whether a digit of the base stands in front.
pub(crate) fn begins_digit(base: Base, bytes: &[u8]) -> bool
    ensures { result ≡ spec_begins_digit base bytes.now }
{
    match bytes {
        [b, ..] => is_digit_of(base, *b),
        [] => false,
    }
}

// How many digits of the base and `_` stand in front.
pub(crate) fn base_run(base: Base, bytes: &[u8]) -> usize
    ensures { result ≡ run (spec.is_digit_or_rule base) bytes.now }
{
    bytes
        .iter()
        .take_while(|b| is_digit_or_rule(base, **b))
        .count()
}

// A number with one more decimal digit, None where it does not stay below 2^128.
fn one_more(number: u128, digit: u8) -> Option<u128>
    ensures { MatchOption result (2 ^ 128 ≤ number * 10 + (digit - 48)) (λ n. n ≡ number * 10 + (digit - 48)) }
{
    let value = u128::from(digit.saturating_sub(b'0'));
    number.checked_mul(10)?.checked_add(value)
}

/// The number that decimal digits spell, None exactly where it is 2^128 or more.
pub fn number(digits: &[u8]) -> Option<u128>
    ensures { MatchOption result (2 ^ 128 ≤ number_of digits.now) (λ n. n ≡ number_of digits.now) }
{
    let mut number: u128 = 0;
    for digit in digits {
        number = one_more(number, *digit)?;
    }
    Some(number)
}

// A number with one more decimal digit or `_`, None where it is neither or the number does not stay below 2^128.
fn decimal_next(number: u128, b: u8) -> Option<u128>
    ensures { result ≡ spec.decimal_next number b }
{
    if b == b'_' {
        Some(number)
    } else if is_digit(b) {
        one_more(number, b)
    } else {
        None
    }
}

// The decimal digits and `_` in front whose number stays below 2^128: how many, and that number.
pub(crate) fn decimal(bytes: &[u8]) -> (usize, u128)
    ensures count { result.0 ≡ spec.decimal_run bytes.now 0 }
    ensures value { result.1 ≡ spec.decimal_of (take (spec.decimal_run bytes.now 0) bytes.now) }
{
    let mut count = 0;
    let mut value: u128 = 0;
    for b in bytes {
        match decimal_next(value, *b) {
            Some(next) => value = next,
            None => return (count, value),
        }
        count += 1;
    }
    (count, value)
}
