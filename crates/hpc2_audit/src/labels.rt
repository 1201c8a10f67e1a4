//! The labels of wires.

ghost use Rattle.std.specs.Prelude.{◌≡◌, ◌<◌, MatchOption, length, slice_index_or};
ghost use Rattle.agm_net.specs.Label.{HasLabel, part_label as label_of_part};
ghost use Rattle.agm_net.specs.View.{plain_of};
ghost use Rattle.agm_net.specs.declared.label.Label.{Label as ALabel};
ghost use Rattle.hpc2_audit.specs.Labels as spec;
ghost use Rattle.hpc2_audit.specs.Sheet.{IsSheet};

use crate::readers::Readers;
use crate::sheet::Sheet;
use crate::spelled::Spelled;
use agm_net::{Label, Net, Part, PartKind};

// The label of a part.
fn part_label(part: Part) -> Label
    ensures { result ≡ label_of_part part.kind part }
{
    match part.kind {
        PartKind::Clk => Label::Clock,
        PartKind::R | PartKind::Rr | PartKind::Vx | PartKind::V | PartKind::Ux | PartKind::Wx =>
            Label::Inner { part },
        PartKind::A
        | PartKind::B
        | PartKind::Bb
        | PartKind::Na
        | PartKind::U
        | PartKind::W
        | PartKind::Mx
        | PartKind::M
        | PartKind::S
        | PartKind::C => Label::Share {
            index: part.i,
            part: Some(part),
        },
    }
}

// The label of a random bit that this part alone reads.
fn pair_label(part: Part) -> Option<Label>
    ensures { result ≡ spec.pair_label part.kind part }
{
    match part.kind {
        PartKind::R => Some(Label::Random {
            gadget: part.gadget,
            i: part.i,
            j: part.j,
        }),
        _ => None,
    }
}

// The label of a random bit by what the name of its one reader says.
fn read_by(said: Spelled) -> Option<Label>
    ensures { result ≡ spec.read_by said }
{
    match said {
        Spelled::OfPart(part) => pair_label(part),
        _ => None,
    }
}

// The label of a random bit by its readers.
fn random_label(said: &[Spelled], readers: Readers) -> Option<Label>
    ensures { result ≡ spec.random_label said.now readers }
{
    match readers {
        Readers::One(wire) => match said.get(wire) {
            Some(reader) => read_by(*reader),
            None => None,
        },
        Readers::Nobody | Readers::Several => None,
    }
}

/// The label of a wire, if its name gives it one.
pub(crate) fn label_of(net: &Net, sheet: &Sheet, wire: usize) -> Option<Label>
    requires sheet { IsSheet (plain_of net.now) sheet.now }
    requires within { wire < length net.now.wires }
    ensures { MatchOption result ((l : ALabel) → HasLabel (plain_of net.now) sheet.now.order wire l → ⊥) (HasLabel (plain_of net.now) sheet.now.order wire) }
{
    let _ = net.wires.len();
    let said = sheet.said.as_slice();
    match said[wire] {
        Spelled::OfClock => Some(Label::Clock),
        Spelled::OfPublic => Some(Label::Public),
        Spelled::OfRandom => random_label(said, sheet.readers.as_slice()[wire]),
        Spelled::OfShare(index) => Some(Label::Share { index, part: None }),
        Spelled::OfPart(part) => Some(part_label(part)),
        Spelled::OfUser => None,
        Spelled::OfNothing => None,
    }
}
