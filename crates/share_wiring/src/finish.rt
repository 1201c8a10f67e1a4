//! The parts of the net that wires stand for.

ghost use Rattle.std.specs.Prelude.{◌≡◌, ◌++◌, ◌∷◌, [], ℕ, List, length, map, IfOk, OnOk};
ghost use Rattle.agm_net.specs.Plain.{line_of, stored_of};
ghost use Rattle.share_wiring.specs.Wiring.{names as names_of, line_at, stored_at, lines_below, stored_below};

use crate::gate::{Source, Wire};
use agm_bits::{List, Memory, Name};
use agm_net::{Equation, Expr, Register};
use std::alloc::Global;

// Adds the equation of a wire that has one.
fn push_line(
    alloc: Global,
    wire: usize,
    source: Source,
    out: &mut List<Equation>,
) -> Result<(), Memory>
    ensures { OnOk result (map line_of out.new ≡ map line_of out.old ++ line_at wire source) }
{
    match source {
        Source::Equation(gate) => {
            let expr = gate.expr(alloc)?;
            out.push(Equation { wire, expr })?;
            Ok(())
        }
        Source::Input | Source::Register(_, _) | Source::Held => Ok(()),
    }
}

/// The equations of wires.
pub fn equations(alloc: Global, wires: &[Wire]) -> Result<List<Equation>, Memory>
    ensures { IfOk result (λ out. map line_of out ≡ lines_below wires.now (length wires.now)) }
{
    let mut out = List::new(alloc);
    for wire in 0..wires.len() {
        push_line(alloc, wire, wires[wire].source, &mut out)?;
    }
    Ok(out)
}

// Adds the register of a wire that is one. One that is held keeps its bit.
fn push_stored(wire: usize, source: Source, out: &mut List<Register>) -> Result<(), Memory>
    ensures { OnOk result (map stored_of out.new ≡ map stored_of out.old ++ stored_at wire source) }
{
    match source {
        Source::Register(next, clock) => {
            out.push(Register {
                q: wire,
                next: Expr::Wire(next),
                clock,
            })?;
            Ok(())
        }
        Source::Held => {
            out.push(Register {
                q: wire,
                next: Expr::Wire(wire),
                clock: 0,
            })?;
            Ok(())
        }
        Source::Input | Source::Equation(_) => Ok(()),
    }
}

/// The registers of wires.
pub fn registers(alloc: Global, wires: &[Wire]) -> Result<List<Register>, Memory>
    ensures { IfOk result (λ out. map stored_of out ≡ stored_below wires.now (length wires.now)) }
{
    let mut out = List::new(alloc);
    for wire in 0..wires.len() {
        push_stored(wire, wires[wire].source, &mut out)?;
    }
    Ok(out)
}

/// The names of wires, which aren't copied.
pub fn names(alloc: Global, wires: Vec<Wire>) -> Result<List<Name>, Memory>
    ensures { IfOk result (λ out. out ≡ names_of wires.items) }
{
    let mut out = List::new(alloc);
    for wire in wires {
        out.push(wire.name)?;
    }
    Ok(out)
}
