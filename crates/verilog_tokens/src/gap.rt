ghost use Rattle.std.specs.Prelude.{◌≡◌, ◌<◌, length, IfSome};
ghost use Rattle.std.specs.Option.{option_map};
ghost use Rattle.verilog_tokens.specs.Gaps as spec;

use crate::bytes::{directive_run, is_blank, is_directive, line_run, word_run};

// What stands behind the first `*/`.
fn behind_close(bytes: &[u8]) -> Option<&[u8]>
    ensures value { option_map (λ r. r.now) result ≡ spec.behind_close bytes.now }
    ensures shorter { IfSome result (λ r. length r.now < length bytes.now) }
{
    let mut rest = bytes;
    while let [_, tail @ ..] = rest {
        if let [b'*', b'/', behind @ ..] = rest {
            return Some(behind);
        }
        rest = tail;
    }
    None
}

// What stands behind a comment, from behind its first `/` on.
fn comment(bytes: &[u8]) -> Option<&[u8]>
    ensures value { option_map (λ r. r.now) result ≡ spec.comment_at bytes.now }
    ensures shorter { IfSome result (λ r. length r.now < length bytes.now) }
{
    match bytes {
        [b'/', rest @ ..] => Some(&rest[line_run(rest)..]),
        [b'*', rest @ ..] => behind_close(rest),
        _ => None,
    }
}

// Whether the line ends here.
fn ends_line(bytes: &[u8]) -> bool
    ensures { result ≡ spec.ends_line bytes.now }
{
    match bytes {
        [b, ..] => *b == b'\n',
        [] => true,
    }
}

// What stands behind a line that is read over, from behind its backquote on.
fn directive(bytes: &[u8]) -> Option<&[u8]>
    ensures { option_map (λ r. r.now) result ≡ spec.directive_at bytes.now }
{
    let (word, tail) = bytes.split_at(word_run(bytes));
    let rest = &tail[directive_run(tail)..];
    if is_directive(word) && ends_line(rest) {
        Some(rest)
    } else {
        None
    }
}

// What stands behind a piece within a line.
fn within(rest: Option<&[u8]>) -> Option<(bool, &[u8])>
    ensures { option_map (λ g. (g.0, g.1.now)) result ≡ spec.within (option_map (λ r. r.now) rest.entry) }
{
    match rest {
        Some(rest) => Some((false, rest)),
        None => None,
    }
}

// What stands behind one byte of white space, one comment or one line that is read over, and whether that place begins a line.
pub(crate) fn gap(begins: bool, bytes: &[u8]) -> Option<(bool, &[u8])>
    ensures { option_map (λ g. (g.0, g.1.now)) result ≡ spec.gap_at begins bytes.now }
{
    match bytes {
        [b, rest @ ..] if is_blank(*b) => Some((begins || *b == b'\n', rest)),
        [b'/', rest @ ..] => within(comment(rest)),
        [b'`', rest @ ..] if begins => within(directive(rest)),
        _ => None,
    }
}
