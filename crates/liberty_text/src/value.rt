ghost use Rattle.std.specs.Prelude.{◌≡◌, IfOk};
ghost use Rattle.liberty_text.specs.Cuts as spec;

use crate::bytes::line_end;
use agm_bits::{Memory, Name};
use std::alloc::Global;

/// The value of a string from what stands between its quotes: a `\` and the line end behind it are
/// one space.
pub fn unbroken(alloc: Global, inner: &[u8]) -> Result<Name, Memory>
    ensures { IfOk result (λ n. n ≡ spec.unbroken inner.now) }
{
    let mut value = Name::new(alloc);
    let mut rest = inner;
    while let [b, behind @ ..] = rest {
        let skipped = if *b == b'\\' { line_end(behind) } else { 0 };
        value.push(if skipped > 0 { b' ' } else { *b })?;
        rest = &behind[skipped..];
    }
    Ok(value)
}
