ghost use Rattle.std.specs.Prelude.{◌≡◌, ◌≤◌, length};
ghost use Rattle.std.specs.Option.{option_map};
ghost use Rattle.liberty_text.specs.First as spec;
ghost use Rattle.liberty_text.specs.Tokens.{tokens_of, token_of, front_of, is_nil};
ghost use Rattle.std.specs.Prelude.{None};

use crate::Token;
use crate::bytes::{ends_in_backslash, is_symbol, line_end, text_bytes, word_bytes};
use crate::gap::gap;

// What stands behind the white space and the comments in front.
fn behind_gaps(bytes: &[u8]) -> &[u8]
    ensures tokens { tokens_of result.now ≡ tokens_of bytes.now }
    ensures none { spec.gap_at result.now ≡ None }
    ensures within { length result.now ≤ length bytes.now }
{
    let mut rest = bytes;
    while let Some(behind) = gap(rest) {
        rest = behind;
    }
    rest
}

// How long the word in front is: a `\` before a line end is none of its bytes.
fn word_run(bytes: &[u8]) -> usize
    ensures { result ≡ spec.word_run bytes.now }
{
    let run = word_bytes(bytes);
    let (word, rest) = bytes.split_at(run);
    if ends_in_backslash(word) && line_end(rest) > 0 {
        run - 1
    } else {
        run
    }
}

// A word.
fn word(bytes: &[u8]) -> Option<(Token<'_>, &[u8])>
    ensures { option_map (λ f. (token_of f.0, f.1.now)) result ≡ spec.word_at bytes.now }
{
    let run = word_run(bytes);
    if run == 0 {
        return None;
    }
    let (word, rest) = bytes.split_at(run);
    Some((Token::Word(word), rest))
}

// A string from behind its first quote on.
fn string(bytes: &[u8]) -> Option<(Token<'_>, &[u8])>
    ensures { option_map (λ f. (token_of f.0, f.1.now)) result ≡ spec.string_at bytes.now }
{
    let (inner, rest) = bytes.split_at(text_bytes(bytes));
    match rest {
        [b'"', behind @ ..] => Some((Token::Text(inner), behind)),
        _ => None,
    }
}

// The longest token.
fn token(bytes: &[u8]) -> Option<(Token<'_>, &[u8])>
    ensures { option_map (λ f. (token_of f.0, f.1.now)) result ≡ spec.token_at bytes.now }
{
    match bytes {
        [] => None,
        [b'/', b'*', ..] => None,
        [b'"', rest @ ..] => string(rest),
        [b, rest @ ..] if is_symbol(*b) => Some((Token::Symbol(*b), rest)),
        _ => word(bytes),
    }
}

/// The first token of a text and what stands behind it. None where the text has no further token,
/// and where a piece that is no token comes first.
pub fn front(bytes: &[u8]) -> Option<(Token<'_>, &[u8])>
    ensures { option_map (λ f. (token_of f.0, tokens_of f.1.now)) result ≡ front_of (tokens_of bytes.now) }
{
    token(behind_gaps(bytes))
}

/// Whether nothing but white space and comments is left.
pub fn is_at_end(bytes: &[u8]) -> bool
    ensures { result ≡ is_nil (tokens_of bytes.now) }
{
    behind_gaps(bytes).is_empty()
}

/// How many bytes are left from the first token on, or from the first piece that is none.
pub fn place(bytes: &[u8]) -> usize
    ensures { result ≤ length bytes.now }
{
    behind_gaps(bytes).len()
}
