//! What gives each part of a gadget its bit.

ghost use Rattle.std.specs.Prelude.{◌≡◌, ◌<◌, ◌+◌, ◌-◌, ◌*◌, ◌^◌, ◌↔◌, ℕ, IsTrue, length};
ghost use Rattle.agm_net.specs.Label.{IsPart, part as a_part};
ghost use Rattle.agm_net.specs.Network as network;
ghost use Rattle.agm_net.specs.Network.{IsMade};
ghost use Rattle.agm_net.specs.View.{plain_of};
ghost use Rattle.hpc2_audit.specs.Recipes.{recipe_of};
ghost use Rattle.hpc2_audit.specs.Recipes as spec;
ghost use Rattle.hpc2_audit.specs.Rules.{KeepsMade};
ghost use Rattle.hpc2_audit.specs.Sheet.{IsSheet};
ghost use Rattle.hpc2_audit.specs.Standing as standing;

use crate::drivers::driver_of;
use crate::forms::{Form, form_of};
use crate::reads::{part_said, said_at, serves};
use crate::sheet::Sheet;
use crate::spelled::Spelled;
use agm_net::{Net, Part, PartKind};

/// What gives a part its bit.
#[derive(Clone, Copy, Debug, PartialEq, Eq)]
pub(crate) enum Making {
    OfTheClock,
    /// A wire that may be read where this share may.
    OfAShare(usize),
    OfARandomBit,
    OfInverse(Part),
    OfProduct(Part, Part),
    OfSum(Part, Part),
    OfStored(Part),
}

fn own(gadget: usize, kind: PartKind, i: usize, j: usize) -> Part
    ensures { result ≡ a_part gadget kind i j }
{
    Part { gadget, kind, i, j }
}

// A part of the pair of two indices, the lower one first.
fn pair_part(gadget: usize, kind: PartKind, i: usize, j: usize) -> Part
    ensures { result ≡ network.pair_part 0 gadget kind i j }
{
    own(gadget, kind, i.min(j), i.max(j))
}

// The number of the indices other than `i`, in ascending order, at a place.
fn other_index(i: usize, place: usize) -> usize
    requires { place < 2 ^ 63 }
    ensures { result ≡ network.other_index i place }
{
    if place < i { place } else { place + 1 }
}

// A term of a share's sum behind `m`.
fn term(gadget: usize, i: usize, n: usize) -> Part
    ensures { result ≡ network.term 0 gadget i n }
{
    let kind = if n % 2 == 1 { PartKind::U } else { PartKind::W };
    own(gadget, kind, i, other_index(i, n.saturating_sub(1) / 2))
}

// A partial sum of a share.
fn partial_sum(order: u32, gadget: usize, i: usize, n: usize) -> Part
    ensures { result ≡ network.partial_sum order gadget i n }
{
    if n == 0 {
        return own(gadget, PartKind::M, i, 0);
    }
    if n == 2 * order as usize {
        own(gadget, PartKind::C, i, 0)
    } else {
        own(gadget, PartKind::S, i, n)
    }
}

fn next_sum(order: u32, gadget: usize, i: usize, n: usize) -> Making
    ensures { recipe_of result ≡ network.next_sum order gadget i n }
{
    Making::OfSum(
        partial_sum(order, gadget, i, n.saturating_sub(1)),
        term(gadget, i, n),
    )
}

/// What gives a part its bit in a gadget of an order.
pub(crate) fn making_of(order: u32, part: Part) -> Making
    ensures { recipe_of result ≡ network.recipe order part.gadget part.kind part.i part.j }
{
    let gadget = part.gadget;
    let i = part.i;
    let j = part.j;
    match part.kind {
        PartKind::Clk => Making::OfTheClock,
        PartKind::A | PartKind::B => Making::OfAShare(i),
        PartKind::R => Making::OfARandomBit,
        PartKind::Rr => Making::OfStored(own(gadget, PartKind::R, i, j)),
        PartKind::Bb => Making::OfStored(own(gadget, PartKind::B, i, 0)),
        PartKind::Vx => Making::OfSum(
            own(gadget, PartKind::B, j, 0),
            pair_part(gadget, PartKind::R, i, j),
        ),
        PartKind::V => Making::OfStored(own(gadget, PartKind::Vx, i, j)),
        PartKind::Na => Making::OfInverse(own(gadget, PartKind::A, i, 0)),
        PartKind::Ux => Making::OfProduct(
            own(gadget, PartKind::Na, i, 0),
            pair_part(gadget, PartKind::Rr, i, j),
        ),
        PartKind::U => Making::OfStored(own(gadget, PartKind::Ux, i, j)),
        PartKind::Wx => Making::OfProduct(
            own(gadget, PartKind::A, i, 0),
            own(gadget, PartKind::V, i, j),
        ),
        PartKind::W => Making::OfStored(own(gadget, PartKind::Wx, i, j)),
        PartKind::Mx => Making::OfProduct(
            own(gadget, PartKind::A, i, 0),
            own(gadget, PartKind::Bb, i, 0),
        ),
        PartKind::M => Making::OfStored(own(gadget, PartKind::Mx, i, 0)),
        PartKind::S => next_sum(order, gadget, i, j),
        PartKind::C => next_sum(order, gadget, i, 2 * order as usize),
    }
}

// Whether the name of a wire says that it is a part.
fn is_part(said: &[Spelled], wire: usize, part: Part) -> bool
    ensures { IsTrue result ↔ (standing.said_at said.now wire ≡ Spelled.OfPart part) }
{
    match said_at(said, wire) {
        Spelled::OfPart(own) => own == part,
        _ => false,
    }
}

// Whether a form is what gives a part its bit.
fn is_form(said: &[Spelled], form: Form, making: Making) -> bool
    ensures { IsTrue result ↔ spec.FormIs said.now form making }
{
    match making {
        Making::OfTheClock => match form {
            Form::Copied(wire) => matches!(said_at(said, wire), Spelled::OfClock),
            _ => false,
        },
        Making::OfAShare(index) => match form {
            Form::Copied(wire) => serves(Some(index), said_at(said, wire)),
            _ => false,
        },
        Making::OfARandomBit => match form {
            Form::Copied(wire) => matches!(said_at(said, wire), Spelled::OfRandom),
            _ => false,
        },
        Making::OfInverse(part) => match form {
            Form::Inverted(wire) => is_part(said, wire, part),
            _ => false,
        },
        Making::OfProduct(first, second) => match form {
            Form::Both(x, y) => is_part(said, x, first) && is_part(said, y, second),
            _ => false,
        },
        Making::OfSum(first, second) => match form {
            Form::Differ(x, y) => is_part(said, x, first) && is_part(said, y, second),
            _ => false,
        },
        Making::OfStored(part) => match form {
            Form::Kept(wire) => is_part(said, wire, part),
            _ => false,
        },
    }
}

/// Whether a wire that is a part has its bit from what gives that part its bit.
pub(crate) fn keeps_made(net: &Net, sheet: &Sheet, wire: usize) -> bool
    requires sheet { IsSheet (plain_of net.now) sheet.now }
    requires within { wire < length net.now.wires }
    ensures { IsTrue result ↔ KeepsMade (plain_of net.now) sheet.now.order wire }
{
    let said = sheet.said.as_slice();
    match part_said(said_at(said, wire)) {
        Some(part) => {
            let form = form_of(driver_of(net, sheet, wire));
            is_form(said, form, making_of(sheet.order, part))
        }
        None => true,
    }
}
