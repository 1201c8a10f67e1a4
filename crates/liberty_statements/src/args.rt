ghost use Rattle.std.specs.Prelude.{◌≡◌, ◌++◌};
ghost use Rattle.liberty_text.specs.Tokens.{tokens_of};
ghost use Rattle.liberty_statements.specs.Grammar.{arg_name, second_name, names_of, colon_words};
ghost use Rattle.liberty_statements.specs.Reading as spec;
ghost use Rattle.std.specs.Prelude.{map, ◌∷◌, []};

use crate::stop::Stop;
use crate::terminals::{begins, symbol, word};
use agm_bits::{List, Name};
use liberty_text::{Token, front, place, unbroken};
use std::alloc::Global;

// `: word`.
#[tactic(auto, unfolding(crate::specs::Reading::colon_word_at))]
fn colon_word(text: &[u8]) -> Result<(&[u8], &[u8]), Stop>
    ensures { spec.Gives (λ x. (x.0.now, tokens_of x.1.now)) result (spec.colon_word_at (tokens_of text.now)) }
{
    let rest = symbol(b':', text)?;
    word(rest)
}

// `: word` as often as it comes, appended to a name.
fn more_words(name: Name, text: &[u8]) -> Result<(Name, &[u8]), Stop>
    ensures { spec.Gives (λ x. (x.0, tokens_of x.1.now)) result (spec.as_value (λ ws. name ++ colon_words ws) (spec.words_at (tokens_of text.now))) }
{
    let mut joined = name;
    let mut rest = text;
    while begins(b':', rest) {
        let (word, behind) = colon_word(rest)?;
        joined.push(b':')?;
        joined.extend(word)?;
        rest = behind;
    }
    Ok((joined, rest))
}

// `: word` as often as it comes.
fn skip_words(text: &[u8]) -> Result<&[u8], Stop>
    ensures { spec.Gives (λ r. tokens_of r.now) result (spec.behind (spec.words_at (tokens_of text.now))) }
{
    let mut rest = text;
    while begins(b':', rest) {
        let (_, behind) = colon_word(rest)?;
        rest = behind;
    }
    Ok(rest)
}

// The name that an argument gives.
fn arg(alloc: Global, text: &[u8]) -> Result<(Name, &[u8]), Stop>
    ensures { spec.Gives (λ x. (x.0, tokens_of x.1.now)) result (spec.as_value arg_name (spec.arg_at (tokens_of text.now))) }
{
    match front(text) {
        Some((Token::Text(inner), behind)) => Ok((unbroken(alloc, inner)?, behind)),
        Some((Token::Word(word), behind)) => more_words(Name::from_slice(alloc, word)?, behind),
        _ => Err(Stop::Wrong(place(text))),
    }
}

// An argument.
fn skip_arg(text: &[u8]) -> Result<&[u8], Stop>
    ensures { spec.Gives (λ r. tokens_of r.now) result (spec.behind (spec.arg_at (tokens_of text.now))) }
{
    match front(text) {
        Some((Token::Text(_), behind)) => Ok(behind),
        Some((Token::Word(_), behind)) => skip_words(behind),
        _ => Err(Stop::Wrong(place(text))),
    }
}

// What stands behind a comma, or the same text where none stands in front.
fn behind_comma(text: &[u8]) -> &[u8]
    ensures { tokens_of result.now ≡ spec.behind_comma (tokens_of text.now) }
{
    match front(text) {
        Some((Token::Symbol(b','), behind)) => behind,
        _ => text,
    }
}

// The names of the arguments from the second on, behind that of the first.
fn more_names(first: List<Name>, alloc: Global, text: &[u8]) -> Result<(List<Name>, &[u8]), Stop>
    ensures { spec.Gives (λ x. (x.0, tokens_of x.1.now)) result (spec.as_value (λ xs. first ++ map second_name xs) (spec.next_args_at (tokens_of text.now))) }
{
    let mut names = first;
    let mut rest = text;
    while !begins(b')', rest) {
        let (name, behind) = arg(alloc, behind_comma(rest))?;
        names.push(name)?;
        rest = behind;
    }
    Ok((names, rest))
}

// The names of one or more arguments.
#[tactic(auto, unfolding(crate::specs::Reading::some_args_at))]
fn some_names(alloc: Global, text: &[u8]) -> Result<(List<Name>, &[u8]), Stop>
    ensures { spec.Gives (λ x. (x.0, tokens_of x.1.now)) result (spec.as_value names_of (spec.some_args_at (tokens_of text.now))) }
{
    let (name, rest) = arg(alloc, text)?;
    let mut first = List::new(alloc);
    first.push(name)?;
    more_names(first, alloc, rest)
}

/// The names that the arguments of a group give, and what stands behind their `)`.
#[tactic(auto, unfolding(crate::specs::Reading::args_end_at))]
pub fn arg_names(alloc: Global, text: &[u8]) -> Result<(List<Name>, &[u8]), Stop>
    ensures { spec.Gives (λ x. (x.0, tokens_of x.1.now)) result (spec.as_value names_of (spec.args_end_at (tokens_of text.now))) }
{
    if begins(b')', text) {
        let rest = symbol(b')', text)?;
        return Ok((List::new(alloc), rest));
    }
    let (names, rest) = some_names(alloc, text)?;
    let rest = symbol(b')', rest)?;
    Ok((names, rest))
}

// The arguments from the second on.
fn skip_more(text: &[u8]) -> Result<&[u8], Stop>
    ensures { spec.Gives (λ r. tokens_of r.now) result (spec.behind (spec.next_args_at (tokens_of text.now))) }
{
    let mut rest = text;
    while !begins(b')', rest) {
        rest = skip_arg(behind_comma(rest))?;
    }
    Ok(rest)
}

/// What stands behind arguments and their `)`.
#[tactic(auto, unfolding(crate::specs::Reading::args_end_at, crate::specs::Reading::some_args_at))]
pub fn skip_args(text: &[u8]) -> Result<&[u8], Stop>
    ensures { spec.Gives (λ r. tokens_of r.now) result (spec.behind (spec.args_end_at (tokens_of text.now))) }
{
    if begins(b')', text) {
        return symbol(b')', text);
    }
    let rest = skip_more(skip_arg(text)?)?;
    symbol(b')', rest)
}
