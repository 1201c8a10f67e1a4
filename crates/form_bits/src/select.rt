ghost use Rattle.std.specs.Prelude.{◌≡◌, ◌+◌, ℕ, IfOk};
ghost use Rattle.agm_net.specs.Plain.{select_name};
ghost use Rattle.form_bits.specs.Forms as spec;

use crate::{Scope, Spot};
use agm_bits::{Memory, Name};
use agm_net::Range;
use std::alloc::Global;

// The spot of a name.
pub(crate) fn look(scope: &Scope, name: &Name) -> Option<Spot>
    ensures { result ≡ spec.look_in scope.now.names scope.now.spots name.now }
{
    match scope.names.find(name.as_slice()) {
        Some(number) => scope.spots.as_slice().get(number).copied(),
        None => None,
    }
}

// Whether a number lies between two others.
fn lies_between(high: u32, low: u32, k: u32) -> bool
    ensures { result ≡ spec.lies_between high low k }
{
    low <= k && k <= high
}

// Whether a bit of this number is there.
pub(crate) fn has_bit(range: Option<Range>, k: u32) -> bool
    ensures { result ≡ spec.has_bit range k }
{
    match range {
        None => false,
        Some(r) => lies_between(r.msb, r.lsb, k) || lies_between(r.lsb, r.msb, k),
    }
}

// Whether two bits are there and stand in this order.
pub(crate) fn has_part(range: Option<Range>, h: u32, l: u32) -> bool
    ensures { result ≡ spec.has_part range h l }
{
    match range {
        None => false,
        Some(r) => {
            (lies_between(r.msb, r.lsb, h) && lies_between(h, r.lsb, l))
                || (lies_between(r.lsb, r.msb, h) && lies_between(r.lsb, h, l))
        }
    }
}

// How many bits a name with a range has, or one without.
pub(crate) fn range_width(range: Option<Range>) -> usize
    ensures { result ≡ spec.range_width range }
{
    match range {
        None => 1,
        Some(r) => r.msb.abs_diff(r.lsb) as usize + 1,
    }
}

// How far a bit stands behind the first.
pub(crate) fn distance(range: Option<Range>, k: u32) -> usize
    ensures { result ≡ spec.distance range k }
{
    match range {
        None => 0,
        Some(r) => r.msb.abs_diff(k) as usize,
    }
}

// A select of one bit as it is written.
pub(crate) fn bit_name(alloc: Global, name: &Name, k: u32) -> Result<Name, Memory>
    ensures { IfOk result (λ n. n ≡ select_name name.now k) }
{
    let select = format!(in alloc; "[{k}]")?;
    let mut text = Name::from_slice(alloc, name.as_slice())?;
    text.extend(select.as_bytes())?;
    Ok(text)
}

// A select of more bits as it is written.
pub(crate) fn part_name(alloc: Global, name: &Name, h: u32, l: u32) -> Result<Name, Memory>
    ensures { IfOk result (λ n. n ≡ spec.part_name name.now h l) }
{
    let select = format!(in alloc; "[{h}:{l}]")?;
    let mut text = Name::from_slice(alloc, name.as_slice())?;
    text.extend(select.as_bytes())?;
    Ok(text)
}
