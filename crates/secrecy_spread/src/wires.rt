//! The secret wires of a net.

ghost use Rattle.std.specs.Prelude.{◌≡◌, ◌<◌, ◌++◌, ◌&&◌, [], ℕ, Some, None, All, IfOk, OnOk, cond, length, slice_get};
ghost use Rattle.std.specs.List.{flat_map};
ghost use Rattle.agm_net.specs.Formula.{formula_of};
ghost use Rattle.agm_net.specs.Plain.{is_input};
ghost use Rattle.agm_net.specs.Secret.{is_secure};
ghost use Rattle.agm_net.specs.View.{plain_of};
ghost use Rattle.secrecy_spread.specs.Wires as spec;

use crate::reach::{Edge, reached};
use agm_bits::{List, Memory};
use agm_net::{Equation, Expr, Mark, Net, Port, Register, Way};
use std::alloc::Global;

// Adds an edge to a wire from each wire that stands in an expression. Expressions are as deep as a cell's function, so the
// recursion is.
fn add_edges(edges: &mut List<Edge>, expr: &Expr, to: usize) -> Result<(), Memory>
    ensures { OnOk result (edges.new ≡ edges.old ++ spec.edges_to to (formula_of expr.now)) }
{
    match expr {
        Expr::Zero | Expr::One => Ok(()),
        Expr::Wire(from) => edges.push(Edge { from: *from, to }),
        Expr::Not(x) => add_edges(edges, x, to),
        Expr::And(x, y) | Expr::Or(x, y) | Expr::Xor(x, y) => {
            add_edges(edges, x, to)?;
            add_edges(edges, y, to)
        }
        Expr::Mux { select, low, high } => {
            add_edges(edges, select, to)?;
            add_edges(edges, low, to)?;
            add_edges(edges, high, to)
        }
    }
}

// Adds the edges of equations.
fn add_equations(edges: &mut List<Edge>, equations: &[Equation]) -> Result<(), Memory>
    ensures { OnOk result (edges.new ≡ edges.old ++ flat_map (λ e. spec.edges_to e.wire (formula_of e.expr)) equations.now) }
{
    for equation in equations {
        add_edges(edges, &equation.expr, equation.wire)?;
    }
    Ok(())
}

// Adds the edges of registers.
fn add_registers(edges: &mut List<Edge>, registers: &[Register]) -> Result<(), Memory>
    ensures { OnOk result (edges.new ≡ edges.old ++ flat_map (λ r. spec.edges_to r.q (formula_of r.next)) registers.now) }
{
    for register in registers {
        add_edges(edges, &register.next, register.q)?;
    }
    Ok(())
}

// The edges of a net, from each wire that is read or stored to the one that reads or stores it.
fn edges_of(alloc: Global, net: &Net) -> Result<List<Edge>, Memory>
    ensures { IfOk result (λ edges. edges ≡ spec.edges_of (plain_of net.now)) }
{
    let mut edges = List::new(alloc);
    add_equations(&mut edges, net.equations.as_slice())?;
    add_registers(&mut edges, net.registers.as_slice())?;
    Ok(edges)
}

// Adds the bits of a port, where it is an input that is marked secure.
fn add_if_secure(bits: &mut List<usize>, port: &Port, mark: Mark) -> Result<(), Memory>
    ensures { OnOk result (bits.new ≡ bits.old ++ cond (is_input port.now && is_secure mark) port.now.bits []) }
{
    if port.way == Way::Input && mark == Mark::Secure {
        bits.extend(port.bits.as_slice())?;
    }
    Ok(())
}

// The bits of input ports that are marked secure.
fn secure_bits(alloc: Global, ports: &[Port], marks: &[Mark]) -> Result<List<usize>, Memory>
    requires { length marks.now ≡ length ports.now }
    ensures { IfOk result (λ bits. bits ≡ spec.secure_bits ports.now marks.now) }
{
    let mut bits = List::new(alloc);
    for (n, port) in ports.iter().enumerate() {
        add_if_secure(&mut bits, port, marks[n])?;
    }
    Ok(bits)
}

/// One flag for each wire of a net: whether it is secret.
///
/// Takes linear time and memory in the size of the net.
///
/// # Errors
///
/// `Memory` where memory runs out.
pub(crate) fn secret_wires(alloc: Global, net: &Net, marks: &[Mark]) -> Result<List<bool>, Memory>
    requires { length marks.now ≡ length net.now.ports }
    ensures { IfOk result (spec.AreWireSecrets (plain_of net.now) marks.now) }
{
    let edges = edges_of(alloc, net)?;
    let starts = secure_bits(alloc, net.ports.as_slice(), marks)?;
    reached(alloc, net.wires.len(), edges.as_slice(), starts.as_slice())
}
