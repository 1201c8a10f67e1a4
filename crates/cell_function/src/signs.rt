ghost use Rattle.std.specs.Prelude.{◌≡◌, ◌||◌};
ghost use Rattle.std.specs.Option.{option_map};
ghost use Rattle.cell_function.specs.Parts.{parts_of};
ghost use Rattle.cell_function.specs.Reading as spec;

use crate::cut::front;
use crate::part::Part;

// What stands behind a sign.
pub(crate) fn behind_sign(sign: u8, text: &[u8]) -> Option<&[u8]>
    ensures { option_map (λ r. parts_of r.now) result ≡ spec.sign_at sign (parts_of text.now) }
{
    match front(text) {
        Some((Part::Sign(s), behind)) if s == sign => Some(behind),
        _ => None,
    }
}

// What stands behind `+` or `|`.
pub(crate) fn behind_or(text: &[u8]) -> Option<&[u8]>
    ensures { option_map (λ r. parts_of r.now) result ≡ spec.behind_or (parts_of text.now) }
{
    match front(text) {
        Some((Part::Sign(s), behind)) if s == b'+' || s == b'|' => Some(behind),
        _ => None,
    }
}

// What stands behind `*`, `&`, or nothing where an operand stands in front.
pub(crate) fn behind_and(text: &[u8]) -> Option<&[u8]>
    ensures { option_map (λ r. parts_of r.now) result ≡ spec.behind_and (parts_of text.now) }
{
    match front(text) {
        Some((Part::Name(_), _)) => Some(text),
        Some((Part::Sign(s), behind)) => {
            if s == b'*' || s == b'&' {
                Some(behind)
            } else if s == b'0' || s == b'1' || s == b'!' || s == b'(' {
                Some(text)
            } else {
                None
            }
        }
        None => None,
    }
}
