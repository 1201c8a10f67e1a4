ghost use Rattle.std.specs.Prelude.{◌≡◌, ◌≤◌, ◌&&◌, nat_le, take, MatchOption, false};
ghost use Rattle.std.specs.Option.{option_map};
ghost use Rattle.small_text.specs.Bytes.{number_of};
ghost use Rattle.small_text.specs.First.{run, begins_blank as spec_begins_blank};
ghost use Rattle.verilog_tokens.specs.First as spec;
ghost use Rattle.verilog_tokens.specs.Constants.{fitted, digit_bits, is_digit_or_rule, low_bits, decimal_of, decimal_run};
ghost use Rattle.verilog_tokens.specs.View.{token_of};

use crate::Lexeme;
use crate::bytes::{
    digit_run, graphic_run, is_blank, is_digit, is_key, is_letter, is_printed, is_symbol, is_text,
    word_run,
};
use crate::constant::{Base, base_of, base_run, begins_digit, decimal, number};

// A word in front, as a key word or a name.
fn word(bytes: &[u8]) -> (Lexeme, &[u8])
    ensures { (token_of result.0, result.1.now) ≡ spec.word_at bytes.now }
{
    let (word, rest) = bytes.split_at(word_run(bytes));
    if is_key(word) {
        (Lexeme::Key(word), rest)
    } else {
        (Lexeme::Name(word), rest)
    }
}

// The size of a constant: from 1 to 65,535.
fn size_of(digits: &[u8]) -> Option<u32>
    ensures { MatchOption result ((nat_le 1 (number_of digits.now) && nat_le (number_of digits.now) 65535) ≡ false) (λ n. (n ≡ number_of digits.now) × (1 ≤ n) × (n ≤ 65535)) }
{
    match number(digits) {
        Some(number) if 1 <= number && number <= 65_535 => Some(number as u32),
        _ => None,
    }
}

// A constant of digits that stand for so many bits each.
fn based_constant(size: u32, base: Base, width: u32, bytes: &[u8]) -> (Lexeme, &[u8])
    ensures { (token_of result.0, result.1.now) ≡ spec.constant_at (fitted size (digit_bits width (take (run (is_digit_or_rule base) bytes.now) bytes.now))) (run (is_digit_or_rule base) bytes.now) bytes.now }
{
    let (digits, rest) = bytes.split_at(base_run(base, bytes));
    (Lexeme::Based(size, width, digits), rest)
}

// A decimal constant.
fn decimal_constant(size: u32, bytes: &[u8]) -> (Lexeme, &[u8])
    ensures { (token_of result.0, result.1.now) ≡ spec.constant_at (low_bits size (decimal_of (take (decimal_run bytes.now 0) bytes.now))) (decimal_run bytes.now 0) bytes.now }
{
    let (count, value) = decimal(bytes);
    let (_, rest) = bytes.split_at(count);
    (Lexeme::Decimal(size, value), rest)
}

// A constant from behind its base on.
fn digits(size: u32, base: Base, bytes: &[u8]) -> Option<(Lexeme, &[u8])>
    ensures { option_map (λ f. (token_of f.0, f.1.now)) result ≡ spec.digits_at size base bytes.now }
{
    if !begins_digit(base, bytes) {
        return None;
    }
    match base {
        Base::Binary => Some(based_constant(size, base, 1, bytes)),
        Base::Octal => Some(based_constant(size, base, 3, bytes)),
        Base::Decimal => Some(decimal_constant(size, bytes)),
        Base::Hexadecimal => Some(based_constant(size, base, 4, bytes)),
    }
}

// A constant from behind its `'` on.
fn based(size: u32, bytes: &[u8]) -> Option<(Lexeme, &[u8])>
    ensures { option_map (λ f. (token_of f.0, f.1.now)) result ≡ spec.based_at size bytes.now }
{
    match bytes {
        [mark, rest @ ..] => match base_of(*mark) {
            Some(base) => digits(size, base, rest),
            None => None,
        },
        [] => None,
    }
}

// A constant from behind its size on.
fn sized<'t>(size: &[u8], bytes: &'t [u8]) -> Option<(Lexeme<'t>, &'t [u8])>
    ensures { option_map (λ f. (token_of f.0, f.1.now)) result ≡ spec.sized_at (number_of size.now) bytes.now }
{
    match bytes {
        [b'\'', rest @ ..] => match size_of(size) {
            Some(size) => based(size, rest),
            None => None,
        },
        _ => None,
    }
}

// A constant or a number in front.
fn numeral(bytes: &[u8]) -> (Lexeme, &[u8])
    ensures { (token_of result.0, result.1.now) ≡ spec.numeral_at bytes.now }
{
    let (digits, rest) = bytes.split_at(digit_run(bytes));
    match sized(digits, rest) {
        Some(constant) => constant,
        None => (Lexeme::Number(digits), rest),
    }
}

// Whether white space stands in front.
fn begins_blank(bytes: &[u8]) -> bool
    ensures { result ≡ spec_begins_blank bytes.now }
{
    match bytes {
        [b, ..] => is_blank(*b),
        [] => false,
    }
}

// A name behind a backslash.
fn escaped(bytes: &[u8]) -> Option<(Lexeme, &[u8])>
    ensures { option_map (λ f. (token_of f.0, f.1.now)) result ≡ spec.escaped_at bytes.now }
{
    let (name, rest) = bytes.split_at(graphic_run(bytes));
    if name.is_empty() || !begins_blank(rest) {
        return None;
    }
    Some((Lexeme::Name(name), rest))
}

// Whether a string goes on with a byte, and then whether that is a `\` that another byte pairs.
fn string_step(paired: bool, b: u8) -> Option<bool>
    ensures { result ≡ spec.string_step paired b }
{
    if paired {
        if is_printed(b) { Some(false) } else { None }
    } else if is_text(b) {
        Some(false)
    } else if b == b'\\' {
        Some(true)
    } else {
        None
    }
}

// How many bytes of a string stand in front.
fn string_run(bytes: &[u8]) -> usize
    ensures { result ≡ spec.string_run bytes.now false }
{
    let mut count = 0;
    let mut paired = false;
    for b in bytes {
        match string_step(paired, *b) {
            Some(next) => paired = next,
            None => return count,
        }
        count += 1;
    }
    count
}

// A string from behind its first quote on.
fn string(bytes: &[u8]) -> Option<(Lexeme, &[u8])>
    ensures { option_map (λ f. (token_of f.0, f.1.now)) result ≡ spec.string_at bytes.now }
{
    let (text, rest) = bytes.split_at(string_run(bytes));
    match rest {
        [b'"', behind @ ..] => Some((Lexeme::Text(text), behind)),
        _ => None,
    }
}

// A token that no mark begins: a word, a numeral or a symbol.
fn unmarked(bytes: &[u8]) -> Option<(Lexeme, &[u8])>
    ensures { option_map (λ f. (token_of f.0, f.1.now)) result ≡ spec.unmarked_at bytes.now }
{
    match bytes {
        [b, ..] if is_letter(*b) => Some(word(bytes)),
        [b, ..] if is_digit(*b) => Some(numeral(bytes)),
        [b, rest @ ..] if is_symbol(*b) => Some((Lexeme::Symbol(*b), rest)),
        _ => None,
    }
}

// The longest token in front and what stands behind it, None where there is none.
pub(crate) fn first_token(bytes: &[u8]) -> Option<(Lexeme, &[u8])>
    ensures { option_map (λ f. (token_of f.0, f.1.now)) result ≡ spec.token_at bytes.now }
{
    match bytes {
        [b'(', b'*', rest @ ..] => Some((Lexeme::Open, rest)),
        [b'*', b')', rest @ ..] => Some((Lexeme::Close, rest)),
        [b'\\', rest @ ..] => escaped(rest),
        [b'"', rest @ ..] => string(rest),
        _ => unmarked(bytes),
    }
}
