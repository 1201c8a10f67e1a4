//! The rules of a single wire on ports and clocks.

ghost use Rattle.std.specs.Prelude.{◌≡◌, ◌<◌, ◌↔◌, ◌&&◌, ◌||◌, IsTrue, length, not};
ghost use Rattle.agm_net.specs.Network.{MayClock};
ghost use Rattle.agm_net.specs.View.{plain_of};
ghost use Rattle.hpc2_audit.specs.Rules.{KeepsClock, KeepsPorts};
ghost use Rattle.hpc2_audit.specs.Sheet.{IsSheet};
ghost use Rattle.hpc2_audit.specs.Standing as spec;

use crate::drivers::{Driven, driver_of};
use crate::kinds::is_clock_kind;
use crate::places::Place;
use crate::reads::{part_said, said_at};
use crate::sheet::Sheet;
use crate::spelled::Spelled;
use agm_net::{Net, Part};

// Whether a list has a wire.
fn is_there(place: Place) -> bool
    ensures { result ≡ spec.is_there place }
{
    match place {
        Place::At(_) => true,
        Place::Nowhere => false,
    }
}

// Whether a name is that of the clock.
fn says_clock(said: Spelled) -> bool
    ensures { result ≡ spec.says_clock said }
{
    matches!(said, Spelled::OfClock)
}

// Whether a name is that of a random bit.
fn says_random(said: Spelled) -> bool
    ensures { result ≡ spec.says_random said }
{
    matches!(said, Spelled::OfRandom)
}

// Whether a second fact follows from a first one, and a fourth from a third.
fn both_follow(first: bool, second: bool, third: bool, fourth: bool) -> bool
    ensures { result ≡ ((not first || second) && (not third || fourth)) }
{
    (!first || second) && (!third || fourth)
}

/// Whether a wire that is named as the clock is the clock, and one that is named as a random bit is a bit of the input port `agm_r`.
pub(crate) fn keeps_ports(net: &Net, sheet: &Sheet, wire: usize) -> bool
    requires sheet { IsSheet (plain_of net.now) sheet.now }
    requires within { wire < length net.now.wires }
    ensures { IsTrue result ↔ KeepsPorts (plain_of net.now) sheet.now.order wire }
{
    let _ = net.wires.len();
    let said = said_at(sheet.said.as_slice(), wire);
    both_follow(
        says_clock(said),
        is_there(sheet.clock.as_slice()[wire]),
        says_random(said),
        is_there(sheet.random.as_slice()[wire]),
    )
}

// Whether the second of two parts is the clock of the gadget of the first.
fn is_own_clock(part: Option<Part>, clock: Option<Part>) -> bool
    ensures { result ≡ spec.is_own_clock part clock }
{
    match part {
        Some(own) => match clock {
            Some(other) => is_clock_kind(other.kind) && other.gadget == own.gadget,
            None => false,
        },
        None => false,
    }
}

// Whether a fact holds, or both of two others.
fn one_or_two(one: bool, first: bool, second: bool) -> bool
    ensures { result ≡ (one || (first && second)) }
{
    one || (first && second)
}

// Whether a wire may be the clock of a register.
fn may_clock(net: &Net, sheet: &Sheet, wire: usize, clock: usize) -> bool
    requires sheet { IsSheet (plain_of net.now) sheet.now }
    requires within { wire < length net.now.wires }
    ensures { IsTrue result ↔ MayClock (plain_of net.now) sheet.now.order wire clock }
{
    let _ = net.wires.len();
    let said = sheet.said.as_slice();
    let own = said_at(said, clock);
    one_or_two(
        says_clock(own),
        sheet.names.find(b"agm_clk".as_slice()).is_some(),
        is_own_clock(part_said(said_at(said, wire)), part_said(own)),
    )
}

/// Whether a register takes its bit with the clock, or with that of its gadget.
pub(crate) fn keeps_clock(net: &Net, sheet: &Sheet, wire: usize) -> bool
    requires sheet { IsSheet (plain_of net.now) sheet.now }
    requires within { wire < length net.now.wires }
    ensures { IsTrue result ↔ KeepsClock (plain_of net.now) sheet.now.order wire }
{
    match driver_of(net, sheet, wire) {
        Driven::Flop(register) => may_clock(net, sheet, wire, register.clock),
        Driven::Line(_expr) => true,
        Driven::Bit => true,
        Driven::Clocked => true,
    }
}
