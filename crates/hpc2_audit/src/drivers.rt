//! What drives a wire.

ghost use Rattle.std.specs.Prelude.{◌<◌, length};
ghost use Rattle.agm_net.specs.View.{plain_of};
ghost use Rattle.hpc2_audit.specs.Sheet.{IsSheet};
ghost use Rattle.hpc2_audit.specs.Standing.{IsDriven};

use crate::places::Place;
use crate::sheet::Sheet;
use agm_net::{Expr, Net, Register};

/// What drives a wire.
#[derive(Clone, Copy)]
pub(crate) enum Driven<'n> {
    /// It is an input bit.
    Bit,
    /// It is the clock.
    Clocked,
    /// It has the value of this expression.
    Line(&'n Expr),
    /// It is the output of this register.
    Flop(&'n Register),
}

/// What drives a wire.
pub(crate) fn driver_of<'n>(net: &'n Net, sheet: &Sheet, wire: usize) -> Driven<'n>
    requires sheet { IsSheet (plain_of net.now) sheet.now }
    requires within { wire < length net.now.wires }
    ensures { IsDriven (plain_of net.now) wire result }
{
    match sheet.lines.as_slice()[wire] {
        Place::At(line) => Driven::Line(&net.equations.as_slice()[line].expr),
        Place::Nowhere => match sheet.registers.as_slice()[wire] {
            Place::At(register) => Driven::Flop(&net.registers.as_slice()[register]),
            Place::Nowhere => match sheet.clock.as_slice()[wire] {
                Place::At(_) => Driven::Clocked,
                Place::Nowhere => Driven::Bit,
            },
        },
    }
}
