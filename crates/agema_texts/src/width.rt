//! How wide the ports of a masked net are.

ghost use Rattle.std.specs.Prelude.{◌≡◌, ◌<◌, ◌≤◌, ◌*◌, ◌+◌, OnOk, IfErr, not, count_by};
ghost use Rattle.agema_texts.specs.Original.{EndsBy};
ghost use Rattle.agema_texts.specs.Width.{width_of, width_limit};
ghost use Rattle.agema_texts.specs.Marked.{IsTooWide};

use agema_answers::{Ended, Refusal};
use std::cmp::max;

// The greatest width that is masked.
const WIDTH_LIMIT: usize = 65_536;

// Whether a flag is not set.
fn is_clear(flag: bool) -> bool
    ensures { result ≡ not flag }
{
    !flag
}

// How many flags are not set.
fn count_clear(flags: &[bool]) -> usize
    ensures { result ≡ count_by not flags.now }
{
    flags.iter().filter(|flag| is_clear(**flag)).count()
}

// How many flags are set.
fn count_set(flags: &[bool]) -> usize
    ensures { result ≡ count_by (λ flag. flag) flags.now }
{
    flags.iter().filter(|flag| **flag).count()
}

// The greatest of the numbers of random bits, of public registers and of secret ones.
fn width(order: u32, gadgets: usize, secret: &[bool]) -> usize
    requires order { order ≤ 7 }
    requires few { gadgets ≤ 65536 }
    ensures { result ≡ width_of order gadgets secret.now }
{
    let order = order as usize;
    let random = gadgets * order * (order + 1) / 2;
    max(random, max(count_clear(secret), count_set(secret)))
}

/// Whether no port of a masked net is too wide.
pub(crate) fn check_width(order: u32, gadgets: usize, secret: &[bool]) -> Result<(), Ended>
    requires order { order ≤ 7 }
    requires few { gadgets ≤ 65536 }
    ensures ok { OnOk result (width_of order gadgets secret.now ≤ width_limit) }
    ensures err { IfErr result (EndsBy (IsTooWide order gadgets secret.now)) }
{
    let bits = width(order, gadgets, secret);
    if bits > WIDTH_LIMIT {
        return Err(Ended::Refused(Refusal::TooWide { bits }));
    }
    Ok(())
}
