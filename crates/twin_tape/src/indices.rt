//! The share indices that probes permit.

ghost use Rattle.std.specs.Prelude.{◌≡◌, ◌≤◌, ◌<◌, ◌+◌, ℕ, All, IfOk, length, filter};
ghost use Rattle.std.specs.List.{range_with_len};
ghost use Rattle.twin_tape.specs.Allowed as spec;
ghost use Rattle.twin_tape.specs.Allowed.{label_at, stage_of};
ghost use Rattle.twin_tape.specs.Permitted.{begun, grown, has, known, with};

use crate::sight::{Sight, sights_of};
use agm_bits::{List, Memory};
use agm_net::Label;
use probe_cones::Probes;
use std::alloc::Global;

/// Whether an index is among some.
pub(crate) fn holds(indices: &[usize], index: usize) -> bool
    ensures { result ≡ has indices.now index }
{
    for i in indices {
        if index == *i {
            return true;
        }
    }
    false
}

// Adds an index where it is missing.
fn add(indices: &mut Vec<usize>, index: usize) -> Result<(), Memory>
    ensures { IfOk result (λ _. indices.new.items ≡ with index indices.old.items) }
{
    if !holds(indices, index) {
        indices.insert(0, index)?;
    }
    Ok(())
}

// Adds the home of an inner probe of a stage, or else the other index of its pair.
fn take_one(sight: Sight, stage: usize, indices: &mut Vec<usize>) -> Result<(), Memory>
    ensures { IfOk result (λ _. indices.new.items ≡ spec.taken_one sight stage indices.old.items) }
{
    match sight {
        Sight::Nobody | Sight::One(_) => Ok(()),
        Sight::Inner {
            gadget: _,
            i,
            j,
            stage: s,
            home,
        } => {
            if s != stage {
                return Ok(());
            }
            if !holds(indices, home) {
                return Ok(indices.insert(0, home)?);
            }
            let other = if home == i { j } else { i };
            add(indices, other)
        }
    }
}

// The same for each inner probe of a stage, in order.
pub(crate) fn grow(sights: &[Sight], stage: usize, indices: &mut Vec<usize>) -> Result<(), Memory>
    ensures { IfOk result (λ _. indices.new.items ≡ grown sights.now stage indices.old.items) }
{
    for sight in sights {
        take_one(*sight, stage, indices)?;
    }
    Ok(())
}

// Adds the index of a plain probe.
fn begin_one(sight: Sight, indices: &mut Vec<usize>) -> Result<(), Memory>
    ensures { IfOk result (λ _. indices.new.items ≡ spec.begun_one sight indices.old.items) }
{
    match sight {
        Sight::One(i) => add(indices, i),
        Sight::Nobody | Sight::Inner { .. } => Ok(()),
    }
}

// Adds the indices of plain probes, the last one first.
pub(crate) fn begin(sights: &[Sight], indices: &mut Vec<usize>) -> Result<(), Memory>
    ensures { IfOk result (λ _. indices.new.items ≡ begun sights.now indices.old.items) }
{
    for k in 0..sights.len() {
        begin_one(sights[sights.len() - 1 - k], indices)?;
    }
    Ok(())
}

// One more than the stage of an inner probe, where it is below a bound, and else 0.
fn mark(bound: usize, sight: Sight) -> usize
    ensures { result ≡ spec.mark bound sight }
{
    match sight {
        Sight::Inner { stage, .. } => { if stage < bound { stage + 1 } else { 0 } }
        Sight::Nobody | Sight::One(_) => 0,
    }
}

// One more than the latest stage below a bound, and 0 where there is none.
fn latest(bound: usize, sights: &[Sight]) -> usize
    ensures { result ≡ spec.latest bound sights.now }
{
    let mut most = 0;
    for sight in sights {
        most = most.max(mark(bound, *sight));
    }
    most
}

// Adds the indices that inner probes permit, from the latest stage to the earliest.
fn grow_all(sights: &[Sight], indices: &mut Vec<usize>) -> Result<(), Memory>
    requires { All (λ s. stage_of s < usize.MAX) sights.now }
    ensures { IfOk result (λ _. (A : List ℕ) (T : ℕ) → indices.old.items ≡ begun sights.now A → All (λ s. stage_of s ≤ T) sights.now → indices.new.items ≡ known sights.now A T 0) }
{
    let mut next = latest(usize::MAX, sights);
    while next > 0 {
        grow(sights, next - 1, indices)?;
        next = latest(next - 1, sights);
    }
    Ok(())
}

// The permitted indices, in the order in which they come.
fn permitted_of(alloc: Global, sights: &[Sight], indices: &[usize]) -> Result<Vec<usize>, Memory>
    requires { All (λ s. stage_of s < usize.MAX) sights.now }
    ensures { IfOk result (λ is. (T : ℕ) → All (λ s. stage_of s ≤ T) sights.now → is.items ≡ known sights.now indices.now T 0) }
{
    let mut permitted = Vec::from_slice(alloc, indices)?;
    begin(sights, &mut permitted)?;
    grow_all(sights, &mut permitted)?;
    Ok(permitted)
}

// Those of some indices that are at most the order, ascending.
fn ascending(alloc: Global, order: u32, indices: &[usize]) -> Result<List<usize>, Memory>
    ensures { IfOk result (λ is. is ≡ filter (has indices.now) (range_with_len 0 (order + 1))) }
{
    let mut found = List::new(alloc);
    for i in 0..order as usize + 1 {
        if holds(indices, i) {
            found.push(i)?;
        }
    }
    Ok(found)
}

/// The share indices that probes permit in a network of an order, ascending: inputs that agree in the public bits and in the shares
/// of these indices give each observation equally often. `labels` has the label of each wire.
///
/// Takes time and memory near linear in the number of probes and indices, for each cycle that is probed.
///
/// # Errors
///
/// `Memory` where memory runs out.
pub fn allowed(
    alloc: Global,
    labels: &[Label],
    order: u32,
    probes: &Probes,
) -> Result<List<usize>, Memory>
    requires wires { All (λ p. p.wire < length labels.now) probes.now.probes }
    requires cycles { All (λ p. p.cycle + 1 < usize.MAX) probes.now.probes }
    ensures { IfOk result (λ is. (T : ℕ) → All (λ p. p.cycle < T) probes.now.probes → is ≡ spec.allowed order (label_at labels.now) probes.now.probes probes.now.indices T) }
{
    let sights = sights_of(alloc, labels, probes.probes.as_slice())?;
    let permitted = permitted_of(alloc, sights.as_slice(), probes.indices.as_slice())?;
    ascending(alloc, order, permitted.as_slice())
}
