ghost use Rattle.std.specs.Prelude.{◌≡◌, ◌≤◌, None, length};
ghost use Rattle.std.specs.Option.{option_map};
ghost use Rattle.liberty_text.specs.Bytes.{is_blank as blank};
ghost use Rattle.liberty_text.specs.First.{run};
ghost use Rattle.cell_function.specs.Cuts as spec;
ghost use Rattle.cell_function.specs.Parts as parts;

use crate::part::Part;

// Whether a byte is white space.
fn is_blank(b: u8) -> bool
    ensures { result ≡ blank b }
{
    b == b' ' || (9 <= b && b <= 10 || 12 <= b && b <= 13)
}

// Whether a name may begin with a byte.
fn is_first(b: u8) -> bool
    ensures { result ≡ spec.is_first b }
{
    b'a' <= b && b <= b'z'
        || (b'A' <= b && b <= b'Z' || (b == b'_' || (b == b'[' || (b == b']' || b == b'.'))))
}

// Whether a byte may stand in a name.
fn is_name(b: u8) -> bool
    ensures { result ≡ spec.is_name b }
{
    is_first(b) || b'0' <= b && b <= b'9'
}

// Whether a byte is one of `0 1 ! ' ^ * & + | ( )`.
fn is_sign(b: u8) -> bool
    ensures { result ≡ spec.is_sign b }
{
    b == b'0'
        || b == b'1'
        || b == b'!'
        || b == b'\''
        || b == b'^'
        || b == b'*'
        || b == b'&'
        || b == b'+'
        || b == b'|'
        || b == b'('
        || b == b')'
}

// How many bytes of a name stand in front.
fn name_bytes(bytes: &[u8]) -> usize
    ensures { result ≡ run spec.is_name bytes.now }
{
    bytes.iter().take_while(|b| is_name(**b)).count()
}

// What stands behind one byte of white space.
fn gap(bytes: &[u8]) -> Option<&[u8]>
    ensures { option_map (λ r. r.now) result ≡ parts.gap_at bytes.now }
{
    match bytes {
        [b, rest @ ..] if is_blank(*b) => Some(rest),
        _ => None,
    }
}

// What stands behind the white space in front.
fn behind_gaps(bytes: &[u8]) -> &[u8]
    ensures all { parts.parts_of result.now ≡ parts.parts_of bytes.now }
    ensures none { parts.gap_at result.now ≡ None }
{
    let mut rest = bytes;
    while let Some(behind) = gap(rest) {
        rest = behind;
    }
    rest
}

// The part in front, and what stands behind it.
fn part(bytes: &[u8]) -> Option<(Part<'_>, &[u8])>
    ensures { option_map (λ f. (parts.part_of f.0, f.1.now)) result ≡ parts.part_at bytes.now }
{
    match bytes {
        [] => None,
        [b, rest @ ..] if is_sign(*b) => Some((Part::Sign(*b), rest)),
        [b, ..] if is_first(*b) => {
            let (name, rest) = bytes.split_at(name_bytes(bytes));
            Some((Part::Name(name), rest))
        }
        _ => None,
    }
}

// The first part of a text and what stands behind it. None where the text has no further part, and
// where a piece that is none comes first.
pub(crate) fn front(bytes: &[u8]) -> Option<(Part<'_>, &[u8])>
    ensures { option_map (λ f. (parts.part_of f.0, parts.parts_of f.1.now)) result ≡ parts.front_of (parts.parts_of bytes.now) }
{
    part(behind_gaps(bytes))
}

// Whether nothing but white space is left.
pub(crate) fn is_at_end(bytes: &[u8]) -> bool
    ensures { result ≡ parts.is_nil (parts.parts_of bytes.now) }
{
    behind_gaps(bytes).is_empty()
}
