//! What public wires and wires of a share read.

ghost use Rattle.std.specs.Prelude.{◌≡◌, ◌<◌, ◌↔◌, ℕ, IsTrue, Some, length};
ghost use Rattle.agm_net.specs.Formula.{formula_of};
ghost use Rattle.agm_net.specs.Run.{driver, reads_ever};
ghost use Rattle.agm_net.specs.View.{plain_of};
ghost use Rattle.hpc2_audit.specs.Rules.{KeepsReads};
ghost use Rattle.hpc2_audit.specs.Sheet.{IsSheet};
ghost use Rattle.hpc2_audit.specs.Standing as spec;

use crate::drivers::{Driven, driver_of};
use crate::kinds::is_share_kind;
use crate::sheet::Sheet;
use crate::spelled::Spelled;
use agm_net::{Expr, Net, Part};

// Whether a part may be read where a share may.
fn is_part_of(part: Part, index: usize) -> bool
    ensures { result ≡ spec.serves (Some index) (Spelled.OfPart part) }
{
    is_share_kind(part.kind) && part.i == index
}

// Whether a wire may be read where public wires and those of a share may.
fn may_serve(index: usize, said: Spelled) -> bool
    ensures { result ≡ spec.serves (Some index) said }
{
    match said {
        Spelled::OfPublic => true,
        Spelled::OfShare(own) => own == index,
        Spelled::OfPart(part) => is_part_of(part, index),
        _ => false,
    }
}

/// Whether a wire may be read where public wires may, and those of a share, if one is given.
pub(crate) fn serves(index: Option<usize>, said: Spelled) -> bool
    ensures { result ≡ spec.serves index said }
{
    match index {
        Some(index) => may_serve(index, said),
        None => matches!(said, Spelled::OfPublic),
    }
}

/// What the name of a wire says, past the last wire as if it were of none.
pub(crate) fn said_at(said: &[Spelled], wire: usize) -> Spelled
    ensures { result ≡ spec.said_at said.now wire }
{
    match said.get(wire) {
        Some(own) => *own,
        None => Spelled::OfUser,
    }
}

/// The part that a name says, if it is one.
pub(crate) fn part_said(said: Spelled) -> Option<Part>
    ensures { result ≡ spec.part_said said }
{
    match said {
        Spelled::OfPart(part) => Some(part),
        _ => None,
    }
}

// Whether all wires that stand in an expression may be read so.
fn all_serve(said: &[Spelled], index: Option<usize>, expr: &Expr) -> bool
    ensures { result ≡ spec.all_stand (λ v. spec.serves index (spec.said_at said.now v)) (formula_of expr.now) }
{
    match expr {
        Expr::Zero | Expr::One => true,
        Expr::Wire(wire) => serves(index, said_at(said, *wire)),
        Expr::Not(x) => all_serve(said, index, x),
        Expr::And(x, y) | Expr::Or(x, y) | Expr::Xor(x, y) => {
            all_serve(said, index, x) && all_serve(said, index, y)
        }
        Expr::Mux { select, low, high } => {
            all_serve(said, index, select)
                && (all_serve(said, index, low) && all_serve(said, index, high))
        }
    }
}

// Whether what drives a wire reads only wires that may be read so.
fn reads_only(net: &Net, sheet: &Sheet, wire: usize, index: Option<usize>) -> bool
    requires sheet { IsSheet (plain_of net.now) sheet.now }
    requires within { wire < length net.now.wires }
    ensures { IsTrue result ↔ ((v : ℕ) → IsTrue (reads_ever (driver (plain_of net.now) wire) v) → IsTrue (spec.serves index (spec.said_at sheet.now.said v))) }
{
    match driver_of(net, sheet, wire) {
        Driven::Line(expr) => all_serve(sheet.said.as_slice(), index, expr),
        Driven::Flop(register) => all_serve(sheet.said.as_slice(), index, &register.next),
        Driven::Bit => true,
        Driven::Clocked => true,
    }
}

// What a wire may read by what its name says: public wires, and perhaps those of a share; None where nothing is asked.
fn asked(said: Spelled) -> Option<Option<usize>>
    ensures { result ≡ spec.asked said }
{
    match said {
        Spelled::OfPublic => Some(None),
        Spelled::OfShare(index) => Some(Some(index)),
        _ => None,
    }
}

/// Whether a public wire reads public wires alone, and a wire of a share that is no part those and its share's.
pub(crate) fn keeps_reads(net: &Net, sheet: &Sheet, wire: usize) -> bool
    requires sheet { IsSheet (plain_of net.now) sheet.now }
    requires within { wire < length net.now.wires }
    ensures { IsTrue result ↔ KeepsReads (plain_of net.now) sheet.now.order wire }
{
    match asked(said_at(sheet.said.as_slice(), wire)) {
        Some(index) => reads_only(net, sheet, wire, index),
        None => true,
    }
}
