ghost use Rattle.std.specs.Prelude.{◌≡◌};
ghost use Rattle.liberty_text.specs.Tokens.{tokens_of};
ghost use Rattle.liberty_statements.specs.Reading as spec;

use crate::stop::Stop;
use liberty_text::{Token, front, place};

/// Whether a symbol stands in front.
pub fn begins(symbol: u8, text: &[u8]) -> bool
    ensures { result ≡ spec.begins symbol (tokens_of text.now) }
{
    match front(text) {
        Some((Token::Symbol(s), _)) => s == symbol,
        _ => false,
    }
}

/// What stands behind a symbol.
pub fn symbol(symbol: u8, text: &[u8]) -> Result<&[u8], Stop>
    ensures { spec.Gives (λ r. tokens_of r.now) result (spec.symbol_at symbol (tokens_of text.now)) }
{
    match front(text) {
        Some((Token::Symbol(s), behind)) if s == symbol => Ok(behind),
        _ => Err(Stop::Wrong(place(text))),
    }
}

/// A word.
pub(crate) fn word(text: &[u8]) -> Result<(&[u8], &[u8]), Stop>
    ensures { spec.Gives (λ x. (x.0.now, tokens_of x.1.now)) result (spec.word_at (tokens_of text.now)) }
{
    match front(text) {
        Some((Token::Word(word), behind)) => Ok((word, behind)),
        _ => Err(Stop::Wrong(place(text))),
    }
}

// What stands behind `(`, which is true, or `:`.
fn mark(text: &[u8]) -> Result<(bool, &[u8]), Stop>
    ensures { spec.Gives (λ x. (x.0, tokens_of x.1.now)) result (spec.bare_mark_at (tokens_of text.now)) }
{
    match front(text) {
        Some((Token::Symbol(b'('), behind)) => Ok((true, behind)),
        Some((Token::Symbol(b':'), behind)) => Ok((false, behind)),
        _ => Err(Stop::Wrong(place(text))),
    }
}

/// The word that a statement begins with, and whether `(` stands behind it or `:`.
#[tactic(auto, unfolding(crate::specs::Reading::start_at))]
pub fn start(text: &[u8]) -> Result<((&[u8], bool), &[u8]), Stop>
    ensures { spec.Gives (λ x. ((x.0.0.now, x.0.1), tokens_of x.1.now)) result (spec.start_at (tokens_of text.now)) }
{
    let (word, rest) = word(text)?;
    let (is_open, rest) = mark(rest)?;
    Ok(((word, is_open), rest))
}

/// What stands behind a `;`, or the same text where none stands in front.
pub fn ended(text: &[u8]) -> &[u8]
    ensures { tokens_of result.now ≡ spec.ended (tokens_of text.now) }
{
    match front(text) {
        Some((Token::Symbol(b';'), behind)) => behind,
        _ => text,
    }
}
