//! Whom probes concern.

ghost use Rattle.std.specs.Prelude.{◌≡◌, ◌<◌, ℕ, All, IfOk, length};
ghost use Rattle.twin_tape.specs.Permitted as spec;
ghost use Rattle.twin_tape.specs.Allowed.{label_at};

use agm_bits::{List, Memory};
use agm_net::{Label, Part, PartKind};
use probe_cones::Probe;
use std::alloc::Global;

/// Whom a probe concerns: no one, one share index, or a pair of indices of one gadget.
#[derive(Clone, Copy, Debug, PartialEq, Eq)]
pub enum Sight {
    Nobody,
    One(usize),
    /// An inner probe. Its stage is one more than the cycle in which it starts, and the home is the index that it permits first.
    Inner {
        gadget: usize,
        i: usize,
        j: usize,
        stage: usize,
        home: usize,
    },
}

// Whom a probe of a gadget's part concerns, where the part depends on a pair of indices.
fn inner_sight(part: Part, cycle: usize) -> Sight
    requires { cycle < usize.MAX }
    ensures { result ≡ spec.inner_sight part.kind part cycle }
{
    let gadget = part.gadget;
    let low = part.i.min(part.j);
    let high = part.i.max(part.j);
    match part.kind {
        PartKind::R => Sight::Inner {
            gadget,
            i: part.i,
            j: part.j,
            stage: cycle + 1,
            home: part.i,
        },
        PartKind::Vx => Sight::Inner {
            gadget,
            i: low,
            j: high,
            stage: cycle + 1,
            home: part.j,
        },
        PartKind::Rr => Sight::Inner {
            gadget,
            i: part.i,
            j: part.j,
            stage: cycle,
            home: part.i,
        },
        _ => Sight::Inner {
            gadget,
            i: low,
            j: high,
            stage: cycle,
            home: part.i,
        },
    }
}

// Whom a probe in a cycle concerns, by the label of its wire.
fn sight_of(label: Label, cycle: usize) -> Sight
    requires { cycle < usize.MAX }
    ensures { result ≡ spec.sight label cycle }
{
    match label {
        Label::Clock | Label::Public => Sight::Nobody,
        Label::Random { gadget, i, j } => Sight::Inner {
            gadget,
            i,
            j,
            stage: cycle + 1,
            home: i,
        },
        Label::Share { index, part: _ } => Sight::One(index),
        Label::Inner { part } => inner_sight(part, cycle),
    }
}

/// Whom some probes concern, by the labels of a net's wires.
pub(crate) fn sights_of(
    alloc: Global,
    labels: &[Label],
    probes: &[Probe],
) -> Result<List<Sight>, Memory>
    requires wires { All (λ p. p.wire < length labels.now) probes.now }
    requires cycles { All (λ p. p.cycle < usize.MAX) probes.now }
    ensures { IfOk result (λ ss. ss ≡ spec.sights (label_at labels.now) probes.now) }
{
    let mut sights = List::new(alloc);
    for probe in probes {
        sights.push(sight_of(labels[probe.wire], probe.cycle))?;
    }
    Ok(sights)
}
