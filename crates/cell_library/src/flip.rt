ghost use Rattle.std.specs.Prelude.{◌≡◌, ◌||◌, codes};
ghost use Rattle.std.specs.Str.{bytes_eq};
ghost use Rattle.liberty_text.specs.Tokens.{tokens_of};
ghost use Rattle.liberty_statements.specs.Grammar.{text_of};
ghost use Rattle.liberty_statements.specs.Reading as reading;
ghost use Rattle.cell_library.specs.Steps as spec;
ghost use Rattle.cell_library.specs.Texts.{flip_texts};
ghost use Rattle.cell_library.specs.View as view;

use crate::pin::skip_open;
use crate::raw::FlipBody;
use liberty_statements::{Stop, begins, skip_value, start, symbol, value_text};
use std::alloc::Global;

// Whether an attribute sets the state without the clock.
fn is_async(name: &[u8]) -> bool
    ensures { result ≡ (bytes_eq name.now (codes "clear") || bytes_eq name.now (codes "preset")) }
{
    name == b"clear".as_slice() || name == b"preset".as_slice()
}

fn is_second_clock(name: &[u8]) -> bool
    ensures { result ≡ bytes_eq name.now (codes "clocked_on_also") }
{
    name == b"clocked_on_also".as_slice()
}

fn either(a: bool, b: bool) -> bool
    ensures { result ≡ (a || b) }
{
    a || b
}

// A simple attribute of a flip-flop, from behind its `:` on.
fn attribute<'t>(
    alloc: Global,
    body: FlipBody,
    name: &[u8],
    text: &'t [u8],
) -> Result<(FlipBody, &'t [u8]), Stop>
    ensures { reading.Gives (λ x. (view.flip_body x.0, tokens_of x.1.now)) result (reading.as_value (λ v. spec.flip_attribute (view.flip_body body) name.now (text_of v)) (reading.value_end_at (tokens_of text.now))) }
{
    if name == b"clocked_on".as_slice() && body.clocked_on.is_none() {
        let (value, rest) = value_text(alloc, text)?;
        return Ok((
            FlipBody {
                clocked_on: Some(value),
                ..body
            },
            rest,
        ));
    }
    if name == b"next_state".as_slice() && body.next_state.is_none() {
        let (value, rest) = value_text(alloc, text)?;
        return Ok((
            FlipBody {
                next_state: Some(value),
                ..body
            },
            rest,
        ));
    }
    let rest = skip_value(text)?;
    Ok((
        FlipBody {
            is_async: either(body.is_async, is_async(name)),
            has_second_clock: either(body.has_second_clock, is_second_clock(name)),
            ..body
        },
        rest,
    ))
}

// A statement of a flip-flop.
fn statement(
    alloc: Global,
    depth: usize,
    body: FlipBody,
    text: &[u8],
) -> Result<(FlipBody, &[u8]), Stop>
    ensures { reading.Gives (λ x. (view.flip_body x.0, tokens_of x.1.now)) result (reading.as_value (spec.flip_more (view.flip_body body)) (reading.statement_at (reading.body_at depth) (tokens_of text.now))) }
{
    let ((name, is_open), rest) = start(text)?;
    if is_open {
        let rest = skip_open(depth, rest)?;
        return Ok((body, rest));
    }
    attribute(alloc, body, name, rest)
}

/// What an `ff` group says, and what stands behind its `}`, from behind its `{` on. So many groups may nest in it.
pub(crate) fn flip_body(alloc: Global, depth: usize, text: &[u8]) -> Result<(FlipBody, &[u8]), Stop>
    ensures { reading.Gives (λ x. (view.flip_body x.0, tokens_of x.1.now)) result (reading.as_value flip_texts (reading.statements_at (reading.body_at depth) (tokens_of text.now))) }
{
    let mut body = FlipBody {
        clocked_on: None,
        next_state: None,
        is_async: false,
        has_second_clock: false,
    };
    let mut rest = text;
    'statements: while !begins(b'}', rest) {
        let (more, behind) = statement(alloc, depth, body, rest)?;
        body = more;
        rest = behind;
    }
    let rest = symbol(b'}', rest)?;
    Ok((body, rest))
}
