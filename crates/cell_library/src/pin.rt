ghost use Rattle.std.specs.Prelude.{◌≡◌, IfOk};
ghost use Rattle.liberty_text.specs.Tokens.{tokens_of};
ghost use Rattle.liberty_statements.specs.Grammar.{text_of};
ghost use Rattle.liberty_statements.specs.Reading as reading;
ghost use Rattle.cell_library.specs.Steps as spec;
ghost use Rattle.cell_library.specs.Texts.{pin_texts};
ghost use Rattle.cell_library.specs.View as view;

use crate::raw::PinBody;
use agm_bits::Name;
use liberty_statements::{
    Stop, begins, ended, skip_args, skip_group, skip_value, start, symbol, value_text,
};
use liberty_text::place;
use std::alloc::Global;

/// What stands behind a group or a complex attribute, from behind its `(` on.
pub(crate) fn skip_open(depth: usize, text: &[u8]) -> Result<&[u8], Stop>
    ensures { reading.Gives (λ r. tokens_of r.now) result (spec.over_open depth (tokens_of text.now)) }
{
    let rest = skip_args(text)?;
    if begins(b'{', rest) {
        let inner = symbol(b'{', rest)?;
        let behind = skip_group(depth, inner)?;
        Ok(ended(behind))
    } else {
        Ok(ended(rest))
    }
}

// A simple attribute of a pin, from behind its `:` on.
fn attribute<'t>(
    alloc: Global,
    body: PinBody,
    name: &[u8],
    text: &'t [u8],
) -> Result<(PinBody, &'t [u8]), Stop>
    ensures { reading.Gives (λ x. (view.pin_body x.0, tokens_of x.1.now)) result (reading.as_value (λ v. spec.pin_attribute (view.pin_body body) name.now (text_of v)) (reading.value_end_at (tokens_of text.now))) }
{
    if name == b"direction".as_slice() && body.direction.is_none() {
        let (value, rest) = value_text(alloc, text)?;
        return Ok((
            PinBody {
                direction: Some(value),
                ..body
            },
            rest,
        ));
    }
    if name == b"function".as_slice() && body.function.is_none() {
        let (value, rest) = value_text(alloc, text)?;
        return Ok((
            PinBody {
                function: Some(value),
                ..body
            },
            rest,
        ));
    }
    let rest = skip_value(text)?;
    let is_three_state = body.is_three_state || name == b"three_state".as_slice();
    Ok((
        PinBody {
            is_three_state,
            ..body
        },
        rest,
    ))
}

// A statement of a pin.
fn statement(
    alloc: Global,
    depth: usize,
    body: PinBody,
    text: &[u8],
) -> Result<(PinBody, &[u8]), Stop>
    ensures { reading.Gives (λ x. (view.pin_body x.0, tokens_of x.1.now)) result (reading.as_value (spec.pin_more (view.pin_body body)) (reading.statement_at (reading.body_at depth) (tokens_of text.now))) }
{
    let ((name, is_open), rest) = start(text)?;
    if is_open {
        let rest = skip_open(depth, rest)?;
        return Ok((body, rest));
    }
    attribute(alloc, body, name, rest)
}

/// What a `pin` group says, and what stands behind its `}`, from behind its `{` on. So many groups may nest in it.
pub(crate) fn pin_body(alloc: Global, depth: usize, text: &[u8]) -> Result<(PinBody, &[u8]), Stop>
    ensures { reading.Gives (λ x. (view.pin_body x.0, tokens_of x.1.now)) result (reading.as_value pin_texts (reading.statements_at (reading.body_at depth) (tokens_of text.now))) }
{
    let mut body = PinBody {
        direction: None,
        function: None,
        is_three_state: false,
    };
    let mut rest = text;
    'statements: while !begins(b'}', rest) {
        let (more, behind) = statement(alloc, depth, body, rest)?;
        body = more;
        rest = behind;
    }
    let rest = symbol(b'}', rest)?;
    Ok((body, rest))
}
