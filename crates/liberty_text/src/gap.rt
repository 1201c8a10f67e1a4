ghost use Rattle.std.specs.Prelude.{◌≡◌, ◌<◌, length, IfSome};
ghost use Rattle.std.specs.Option.{option_map};
ghost use Rattle.liberty_text.specs.First as spec;

use crate::bytes::{is_blank, line_end};

// What stands behind the first `*/`.
fn behind_close(bytes: &[u8]) -> Option<&[u8]>
    ensures value { option_map (λ r. r.now) result ≡ spec.behind_close bytes.now }
    ensures shorter { IfSome result (λ r. length r.now < length bytes.now) }
{
    let mut rest = bytes;
    while let [_, tail @ ..] = rest {
        if let [b'*', b'/', behind @ ..] = rest {
            return Some(behind);
        }
        rest = tail;
    }
    None
}

// What stands behind a line end.
fn behind_line(bytes: &[u8]) -> Option<&[u8]>
    ensures { option_map (λ r. r.now) result ≡ spec.line_at bytes.now }
{
    match bytes {
        [b'\n', rest @ ..] => Some(rest),
        [b'\r', b'\n', rest @ ..] => Some(rest),
        _ => None,
    }
}

// What stands behind one byte of white space, a `\` and a line end, or a comment.
pub(crate) fn gap(bytes: &[u8]) -> Option<&[u8]>
    ensures { option_map (λ r. r.now) result ≡ spec.gap_at bytes.now }
{
    match bytes {
        [b'/', b'*', rest @ ..] => behind_close(rest),
        [b'\\', rest @ ..] => behind_line(rest),
        [b, rest @ ..] if is_blank(*b) => Some(rest),
        _ => None,
    }
}
