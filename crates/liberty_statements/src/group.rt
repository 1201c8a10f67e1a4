ghost use Rattle.std.specs.Prelude.{◌≡◌};
ghost use Rattle.liberty_text.specs.Tokens.{tokens_of};
ghost use Rattle.liberty_statements.specs.Reading as spec;

use crate::args::skip_args;
use crate::stop::Stop;
use crate::terminals::{begins, ended, start, symbol};
use crate::values::skip_value;
use liberty_text::place;

// Arguments and what makes them a group, which is true, or a complex attribute.
fn over_args(text: &[u8]) -> Result<(bool, &[u8]), Stop>
    ensures { spec.Gives (λ x. (x.0, tokens_of x.1.now)) result (spec.over_args (tokens_of text.now)) }
{
    let rest = skip_args(text)?;
    if begins(b'{', rest) {
        let behind = symbol(b'{', rest)?;
        Ok((true, behind))
    } else {
        Ok((false, ended(rest)))
    }
}

// The value of a simple attribute.
fn over_value(text: &[u8]) -> Result<(bool, &[u8]), Stop>
    ensures { spec.Gives (λ x. (x.0, tokens_of x.1.now)) result (spec.over_value (tokens_of text.now)) }
{
    let rest = skip_value(text)?;
    Ok((false, rest))
}

// A statement, or the start of a group with its `{`, which is true.
#[tactic(auto, unfolding(crate::specs::Reading::head_at))]
fn head(text: &[u8]) -> Result<(bool, &[u8]), Stop>
    ensures { spec.Gives (λ x. (x.0, tokens_of x.1.now)) result (spec.head_at (tokens_of text.now)) }
{
    let ((_, is_open), rest) = start(text)?;
    if is_open {
        over_args(rest)
    } else {
        over_value(rest)
    }
}

/// What stands behind the `}` of a group, from behind its `{` on. At most so many groups may nest,
/// itself among them. Nothing of it is kept, and nesting takes no stack.
pub fn skip_group(depth: usize, text: &[u8]) -> Result<&[u8], Stop>
    ensures { spec.Gives (λ r. tokens_of r.now) result (spec.behind (spec.body_at depth (tokens_of text.now))) }
{
    if depth == 0 {
        return Err(Stop::Wrong(place(text)));
    }
    let mut rest = text;
    let mut free = depth - 1;
    loop {
        if begins(b'}', rest) {
            let behind = symbol(b'}', rest)?;
            free += 1;
            if free == depth {
                return Ok(behind);
            }
            rest = ended(behind);
        } else {
            let (is_group, behind) = head(rest)?;
            if is_group {
                if free == 0 {
                    return Err(Stop::Wrong(behind.len().saturating_add(1)));
                }
                free -= 1;
            }
            rest = behind;
        }
    }
}
