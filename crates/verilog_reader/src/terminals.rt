ghost use Rattle.std.specs.Prelude.{◌≡◌};
ghost use Rattle.small_text.specs.Bytes.{number_of};
ghost use Rattle.verilog_tokens.specs.Row.{tokens_of};
ghost use Rattle.verilog_reader.specs.Reading as spec;

use crate::Value;
use crate::stop::Stop;
use agm_bits::Name;
use agm_net::Way;
use std::alloc::Global;
use verilog_tokens::{Lexeme, based_bits, decimal_bits, is_at_end, next, number as value_of};

// One symbol.
pub(crate) fn symbol(symbol: u8, bytes: &[u8]) -> Result<&[u8], Stop>
    ensures { spec.Gives (λ r. tokens_of r.now) result (spec.symbol_at symbol (tokens_of bytes.now)) }
{
    match next(bytes) {
        Some((Lexeme::Symbol(s), rest)) if s == symbol => Ok(rest),
        _ => Err(Stop::Wrong(bytes.len())),
    }
}

// Whether a symbol stands in front.
pub(crate) fn begins(symbol: u8, bytes: &[u8]) -> bool
    ensures { result ≡ spec.begins symbol (tokens_of bytes.now) }
{
    match next(bytes) {
        Some((Lexeme::Symbol(s), _)) => s == symbol,
        _ => false,
    }
}

// What stands behind a symbol, where it stands in front.
pub(crate) fn behind(symbol: u8, bytes: &[u8]) -> Option<&[u8]>
    ensures { spec.Leads (λ r. tokens_of r.now) result (spec.symbol_at symbol (tokens_of bytes.now)) }
{
    match next(bytes) {
        Some((Lexeme::Symbol(s), rest)) if s == symbol => Some(rest),
        _ => None,
    }
}

// One key.
pub(crate) fn key<'t>(word: &[u8], bytes: &'t [u8]) -> Result<&'t [u8], Stop>
    ensures { spec.Gives (λ r. tokens_of r.now) result (spec.key_at word.now (tokens_of bytes.now)) }
{
    match next(bytes) {
        Some((Lexeme::Key(k), rest)) if k == word => Ok(rest),
        _ => Err(Stop::Wrong(bytes.len())),
    }
}

// What stands behind a key, where it stands in front.
pub(crate) fn behind_key<'t>(word: &[u8], bytes: &'t [u8]) -> Option<&'t [u8]>
    ensures { spec.Leads (λ r. tokens_of r.now) result (spec.key_at word.now (tokens_of bytes.now)) }
{
    match next(bytes) {
        Some((Lexeme::Key(k), rest)) if k == word => Some(rest),
        _ => None,
    }
}

// Whether the text goes on with an item, as it does until `endmodule`.
pub(crate) fn goes_on(bytes: &[u8]) -> bool
    ensures { result ≡ spec.goes_on (tokens_of bytes.now) }
{
    match next(bytes) {
        Some((Lexeme::Key(word), _)) => word != b"endmodule".as_slice(),
        Some(_) => true,
        None => false,
    }
}

// Whether an identifier stands in front.
pub(crate) fn begins_name(bytes: &[u8]) -> bool
    ensures { result ≡ spec.begins_name (tokens_of bytes.now) }
{
    match next(bytes) {
        Some((Lexeme::Name(_), _)) => true,
        _ => false,
    }
}

// Whether a number stands in front.
pub(crate) fn begins_number(bytes: &[u8]) -> bool
    ensures { result ≡ spec.begins_number (tokens_of bytes.now) }
{
    match next(bytes) {
        Some((Lexeme::Number(_), _)) => true,
        _ => false,
    }
}

// Whether attributes stand in front.
pub(crate) fn begins_open(bytes: &[u8]) -> bool
    ensures { result ≡ spec.begins_open (tokens_of bytes.now) }
{
    match next(bytes) {
        Some((Lexeme::Open, _)) => true,
        _ => false,
    }
}

// Whether a token or another piece stands in front.
pub(crate) fn is_more(bytes: &[u8]) -> bool
    ensures { result ≡ spec.is_more (tokens_of bytes.now) }
{
    !is_at_end(bytes)
}

// `(*`.
pub(crate) fn open(bytes: &[u8]) -> Result<&[u8], Stop>
    ensures { spec.Gives (λ r. tokens_of r.now) result (spec.open_at (tokens_of bytes.now)) }
{
    match next(bytes) {
        Some((Lexeme::Open, rest)) => Ok(rest),
        _ => Err(Stop::Wrong(bytes.len())),
    }
}

// `*)`.
pub(crate) fn close(bytes: &[u8]) -> Result<&[u8], Stop>
    ensures { spec.Gives (λ r. tokens_of r.now) result (spec.close_at (tokens_of bytes.now)) }
{
    match next(bytes) {
        Some((Lexeme::Close, rest)) => Ok(rest),
        _ => Err(Stop::Wrong(bytes.len())),
    }
}

// An identifier.
pub(crate) fn ident(bytes: &[u8]) -> Result<(&[u8], &[u8]), Stop>
    ensures { spec.Gives (λ x. (x.0.now, tokens_of x.1.now)) result (spec.ident_at (tokens_of bytes.now)) }
{
    match next(bytes) {
        Some((Lexeme::Name(name), rest)) => Ok((name, rest)),
        _ => Err(Stop::Wrong(bytes.len())),
    }
}

// A number in the limits of ranges, selects and counts.
fn small_number(least: u32, digits: &[u8]) -> Option<u32>
    ensures { result ≡ spec.limited least (number_of digits.now) }
{
    match value_of(digits) {
        Some(n) if u128::from(least) <= n && n <= 65_535 => Some(n as u32),
        _ => None,
    }
}

// A number that ranges, selects and counts may have, from a least one on.
pub(crate) fn number(least: u32, bytes: &[u8]) -> Result<(u32, &[u8]), Stop>
    ensures { spec.Gives (λ x. (x.0, tokens_of x.1.now)) result (spec.number_at least (tokens_of bytes.now)) }
{
    match next(bytes) {
        Some((Lexeme::Number(digits), rest)) => match small_number(least, digits) {
            Some(n) => Ok((n, rest)),
            None => Err(Stop::Wrong(bytes.len())),
        },
        _ => Err(Stop::Wrong(bytes.len())),
    }
}

// The value of an attribute.
pub(crate) fn value(alloc: Global, bytes: &[u8]) -> Result<(Value, &[u8]), Stop>
    ensures { spec.Gives (λ x. (x.0, tokens_of x.1.now)) result (spec.value_at (tokens_of bytes.now)) }
{
    match next(bytes) {
        Some((Lexeme::Text(text), rest)) => Ok((Value::Text(Name::from_slice(alloc, text)?), rest)),
        Some((Lexeme::Number(digits), rest)) => match value_of(digits) {
            Some(n) => Ok((Value::Number(n), rest)),
            None => Err(Stop::Wrong(bytes.len())),
        },
        Some((Lexeme::Decimal(size, value), rest)) => {
            Ok((Value::Bits(decimal_bits(alloc, size, value)?), rest))
        }
        Some((Lexeme::Based(size, width, digits), rest)) => {
            Ok((Value::Bits(based_bits(alloc, size, width, digits)?), rest))
        }
        _ => Err(Stop::Wrong(bytes.len())),
    }
}

// The way that a key names.
fn way_of(word: &[u8]) -> Option<Way>
    ensures { result ≡ spec.way_of word.now }
{
    if word == b"input".as_slice() {
        Some(Way::Input)
    } else if word == b"output".as_slice() {
        Some(Way::Output)
    } else {
        None
    }
}

// `input` or `output`.
pub(crate) fn way(bytes: &[u8]) -> Result<(Way, &[u8]), Stop>
    ensures { spec.Gives (λ x. (x.0, tokens_of x.1.now)) result (spec.way_at (tokens_of bytes.now)) }
{
    match next(bytes) {
        Some((Lexeme::Key(word), rest)) => match way_of(word) {
            Some(way) => Ok((way, rest)),
            None => Err(Stop::Wrong(bytes.len())),
        },
        _ => Err(Stop::Wrong(bytes.len())),
    }
}
