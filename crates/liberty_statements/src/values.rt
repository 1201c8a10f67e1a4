ghost use Rattle.std.specs.Prelude.{◌≡◌, ◌++◌};
ghost use Rattle.liberty_text.specs.Tokens.{tokens_of};
ghost use Rattle.liberty_statements.specs.Grammar.{piece_text, spaced, text_of};
ghost use Rattle.liberty_statements.specs.Reading as spec;

use crate::stop::Stop;
use crate::terminals::{begins, symbol};
use agm_bits::Name;
use liberty_text::{Token, front, place, unbroken};
use std::alloc::Global;

// A piece of a value, appended to a text.
fn piece(text: Name, rest: &[u8]) -> Result<(Name, &[u8]), Stop>
    ensures { spec.Gives (λ x. (x.0, tokens_of x.1.now)) result (spec.as_value (λ p. text ++ piece_text p) (spec.piece_at (tokens_of rest.now))) }
{
    let mut text = text;
    match front(rest) {
        Some((Token::Word(word), behind)) => {
            text.extend(word)?;
            Ok((text, behind))
        }
        Some((Token::Symbol(b','), behind)) => {
            text.push(b',')?;
            Ok((text, behind))
        }
        Some((Token::Symbol(b'('), behind)) => {
            text.push(b'(')?;
            Ok((text, behind))
        }
        Some((Token::Symbol(b')'), behind)) => {
            text.push(b')')?;
            Ok((text, behind))
        }
        _ => Err(Stop::Wrong(place(rest))),
    }
}

// A piece of a value.
fn skip_piece(rest: &[u8]) -> Result<&[u8], Stop>
    ensures { spec.Gives (λ r. tokens_of r.now) result (spec.behind (spec.piece_at (tokens_of rest.now))) }
{
    match front(rest) {
        Some((Token::Word(_), behind)) => Ok(behind),
        Some((Token::Symbol(b','), behind)) => Ok(behind),
        Some((Token::Symbol(b'('), behind)) => Ok(behind),
        Some((Token::Symbol(b')'), behind)) => Ok(behind),
        _ => Err(Stop::Wrong(place(rest))),
    }
}

// The pieces up to `;`, appended to a text with a space before each.
fn more_pieces(first: Name, rest: &[u8]) -> Result<(Name, &[u8]), Stop>
    ensures { spec.Gives (λ x. (x.0, tokens_of x.1.now)) result (spec.as_value (λ ps. first ++ spaced ps) (spec.next_pieces_at (tokens_of rest.now))) }
{
    let mut text = first;
    let mut left = rest;
    while !begins(b';', left) {
        text.push(b' ')?;
        let (longer, behind) = piece(text, left)?;
        text = longer;
        left = behind;
    }
    Ok((text, left))
}

// The pieces up to `;`.
fn skip_more(rest: &[u8]) -> Result<&[u8], Stop>
    ensures { spec.Gives (λ r. tokens_of r.now) result (spec.behind (spec.next_pieces_at (tokens_of rest.now))) }
{
    let mut left = rest;
    while !begins(b';', left) {
        left = skip_piece(left)?;
    }
    Ok(left)
}

// The text of a value that is no string.
#[tactic(auto, unfolding(crate::specs::Reading::pieces_at))]
fn pieces(alloc: Global, rest: &[u8]) -> Result<(Name, &[u8]), Stop>
    ensures { spec.Gives (λ x. (x.0, tokens_of x.1.now)) result (spec.as_value text_of (spec.pieces_at (tokens_of rest.now))) }
{
    let (first, behind) = piece(Name::new(alloc), rest)?;
    more_pieces(first, behind)
}

// The text of a value.
fn value(alloc: Global, rest: &[u8]) -> Result<(Name, &[u8]), Stop>
    ensures { spec.Gives (λ x. (x.0, tokens_of x.1.now)) result (spec.as_value text_of (spec.value_at (tokens_of rest.now))) }
{
    match front(rest) {
        Some((Token::Text(inner), behind)) => Ok((unbroken(alloc, inner)?, behind)),
        _ => pieces(alloc, rest),
    }
}

/// The text of a simple attribute's value, and what stands behind its `;`.
#[tactic(auto, unfolding(crate::specs::Reading::value_end_at))]
pub fn value_text(alloc: Global, rest: &[u8]) -> Result<(Name, &[u8]), Stop>
    ensures { spec.Gives (λ x. (x.0, tokens_of x.1.now)) result (spec.as_value text_of (spec.value_end_at (tokens_of rest.now))) }
{
    let (text, behind) = value(alloc, rest)?;
    let behind = symbol(b';', behind)?;
    Ok((text, behind))
}

// The pieces of a value that is no string.
#[tactic(auto, unfolding(crate::specs::Reading::pieces_at))]
fn skip_pieces(rest: &[u8]) -> Result<&[u8], Stop>
    ensures { spec.Gives (λ r. tokens_of r.now) result (spec.behind (spec.pieces_at (tokens_of rest.now))) }
{
    skip_more(skip_piece(rest)?)
}

// A value.
fn skip_any(rest: &[u8]) -> Result<&[u8], Stop>
    ensures { spec.Gives (λ r. tokens_of r.now) result (spec.behind (spec.value_at (tokens_of rest.now))) }
{
    match front(rest) {
        Some((Token::Text(_), behind)) => Ok(behind),
        _ => skip_pieces(rest),
    }
}

/// What stands behind the value of a simple attribute and its `;`.
#[tactic(auto, unfolding(crate::specs::Reading::value_end_at))]
pub fn skip_value(rest: &[u8]) -> Result<&[u8], Stop>
    ensures { spec.Gives (λ r. tokens_of r.now) result (spec.behind (spec.value_end_at (tokens_of rest.now))) }
{
    let behind = skip_any(rest)?;
    symbol(b';', behind)
}
