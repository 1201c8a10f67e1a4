//! What a run's probes ask of its twin.

ghost use Rattle.std.specs.Prelude.{◌≡◌, ◌<◌, ◌+◌, ℕ, All, IfOk, length, map};
ghost use Rattle.std.specs.List.{range_with_len};
ghost use Rattle.twin_tape.specs.Allowed.{label_at};
ghost use Rattle.twin_tape.specs.Permitted.{sights, taken};
ghost use Rattle.twin_tape.specs.Plans as spec;

use crate::indices::{begin, grow};
use crate::sight::{Sight, sights_of};
use agm_bits::{List, Memory};
use agm_net::Label;
use probe_cones::{Probe, Probes};
use std::alloc::Global;

/// A probe by the label of its wire.
#[derive(Clone, Copy, Debug, PartialEq, Eq)]
pub(crate) struct Mark {
    pub(crate) label: Label,
    pub(crate) cycle: usize,
}

/// What probes in so many cycles ask of a twin.
#[derive(Debug, Drop)]
pub(crate) struct Plan {
    pub(crate) cycles: usize,
    /// The indices whose shares are to be the same, from those in all cycles on: one list more than there are cycles.
    pub(crate) stages: List<List<usize>>,
    pub(crate) marks: List<Mark>,
}

// Some probes by their labels.
fn marks_of(alloc: Global, labels: &[Label], probes: &[Probe]) -> Result<List<Mark>, Memory>
    requires { All (λ p. p.wire < length labels.now) probes.now }
    ensures { IfOk result (λ ms. ms ≡ map (spec.mark_of (label_at labels.now)) probes.now) }
{
    let mut marks = List::new(alloc);
    for probe in probes {
        marks.push(Mark {
            label: labels[probe.wire],
            cycle: probe.cycle,
        })?;
    }
    Ok(marks)
}

// The indices with those of plain probes.
fn begun_with(alloc: Global, sights: &[Sight], indices: &[usize]) -> Result<Vec<usize>, Memory>
    ensures { IfOk result (λ known. (top : ℕ) → known.items ≡ taken sights.now indices.now top 0) }
{
    let mut known = Vec::from_slice(alloc, indices)?;
    begin(sights, &mut known)?;
    Ok(known)
}

// The indices stage by stage, from the latest on.
fn stages_of(
    alloc: Global,
    sights: &[Sight],
    indices: &[usize],
    cycles: usize,
) -> Result<List<List<usize>>, Memory>
    ensures { IfOk result (λ ls. ls ≡ map (taken sights.now indices.now cycles) (range_with_len 0 (cycles + 1))) }
{
    let mut known = begun_with(alloc, sights, indices)?;
    let mut stages = List::new(alloc);
    stages.push(List::from_slice(alloc, known.as_slice())?)?;
    for earlier in 0..cycles {
        grow(sights, cycles - earlier, &mut known)?;
        stages.push(List::from_slice(alloc, known.as_slice())?)?;
    }
    Ok(stages)
}

/// What probes in so many cycles ask of a twin.
pub(crate) fn plan_of(
    alloc: Global,
    labels: &[Label],
    probes: &Probes,
    cycles: usize,
) -> Result<Plan, Memory>
    requires wires { All (λ p. p.wire < length labels.now) probes.now.probes }
    requires cycles { All (λ p. p.cycle < cycles) probes.now.probes }
    ensures { IfOk result (λ plan. spec.IsPlan (label_at labels.now) probes.now.probes probes.now.indices cycles plan) }
{
    let sights = sights_of(alloc, labels, probes.probes.as_slice())?;
    let stages = stages_of(alloc, sights.as_slice(), probes.indices.as_slice(), cycles)?;
    let marks = marks_of(alloc, labels, probes.probes.as_slice())?;
    Ok(Plan {
        cycles,
        stages,
        marks,
    })
}
