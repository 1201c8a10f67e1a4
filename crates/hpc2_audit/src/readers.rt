//! Who reads each wire.

ghost use Rattle.std.specs.Prelude.{◌≡◌, ◌<◌, ℕ, IfOk};
ghost use Rattle.agm_net.specs.Formula.{formula_of};
ghost use Rattle.agm_net.specs.View.{plain_of};
ghost use Rattle.agm_net.specs.Plain.{line_of, stored_of};
ghost use Rattle.std.specs.Prelude.{length, map};
ghost use Rattle.hpc2_audit.specs.Readers as spec;

use agm_bits::{List, Memory};
use agm_net::{Equation, Expr, Net, Register};
use std::alloc::Global;

/// Which wires read a wire, or have it for their clock.
#[derive(Clone, Copy, Debug, PartialEq, Eq)]
pub(crate) enum Readers {
    Nobody,
    /// This one alone.
    One(usize),
    Several,
}

// The readers with one more.
fn joined(readers: Readers, reader: usize) -> Readers
    ensures { result ≡ spec.joined readers reader }
{
    match readers {
        Readers::Nobody => Readers::One(reader),
        Readers::One(first) => {
            if first == reader {
                Readers::One(first)
            } else {
                Readers::Several
            }
        }
        Readers::Several => Readers::Several,
    }
}

// Notes that one wire reads another, if that is one.
fn note(readers: &mut [Readers], reader: usize, wire: usize)
    ensures { readers.new ≡ spec.noted readers.old reader wire }
{
    if wire < readers.len() {
        readers[wire] = joined(readers[wire], reader);
    }
}

// Notes the wires that stand in an expression.
fn note_all(readers: &mut [Readers], reader: usize, expr: &Expr)
    ensures { readers.new ≡ spec.noted_all reader (formula_of expr.now) readers.old }
{
    match expr {
        Expr::Zero | Expr::One => (),
        Expr::Wire(wire) => note(readers, reader, *wire),
        Expr::Not(x) => note_all(readers, reader, x),
        Expr::And(x, y) | Expr::Or(x, y) | Expr::Xor(x, y) => {
            note_all(readers, reader, x);
            note_all(readers, reader, y);
        }
        Expr::Mux { select, low, high } => {
            note_all(readers, reader, select);
            note_all(readers, reader, low);
            note_all(readers, reader, high);
        }
    }
}

// Notes what equations read.
fn note_equations(readers: &mut [Readers], equations: &[Equation])
    ensures { readers.new ≡ spec.noted_lines (map line_of equations.now) readers.old }
{
    for equation in equations {
        note_all(readers, equation.wire, &equation.expr);
    }
}

// Notes what registers store, and their clocks.
fn note_registers(readers: &mut [Readers], registers: &[Register])
    ensures { readers.new ≡ spec.noted_registers (map stored_of registers.now) readers.old }
{
    for register in registers {
        note_all(readers, register.q, &register.next);
        note(readers, register.q, register.clock);
    }
}

// Notes all readers in a net, where none is noted before.
fn note_net(readers: &mut [Readers], net: &Net)
    requires as_many { length readers.old ≡ length net.now.wires }
    requires nobody { (w : ℕ) → w < length net.now.wires → spec.readers_at readers.old w ≡ Readers.Nobody }
    ensures { spec.AreReaders (plain_of net.now) readers.new }
{
    note_equations(readers, net.equations.as_slice());
    note_registers(readers, net.registers.as_slice());
}

/// Who reads each wire of a net.
pub(crate) fn readers_of(alloc: Global, net: &Net) -> Result<List<Readers>, Memory>
    ensures { IfOk result (spec.AreReaders (plain_of net.now)) }
{
    let mut readers = vec![in alloc; Readers::Nobody; net.wires.len()]?;
    note_net(readers.as_mut_slice(), net);
    Ok(List::from_vec(readers))
}
