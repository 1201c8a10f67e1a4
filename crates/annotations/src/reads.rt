ghost use Rattle.std.specs.Prelude.{◌≡◌, ◌==◌, ◌&&◌, ◌<◌, ℕ, not, true, false, length, slice_set, IfOk};
ghost use Rattle.std.specs.List.{list_any};
ghost use Rattle.agm_net.specs.Formula.{formula_of, stands};
ghost use Rattle.agm_net.specs.Plain.{is_input};
ghost use Rattle.agm_net.specs.View.{plain_of};
ghost use Rattle.annotations.specs.Clocked.{is_alone, is_read};
ghost use Rattle.annotations.specs.Spread as spec;

use agm_bits::Memory;
use agm_net::{Equation, Expr, Net, Port, Register, Way};
use std::alloc::Global;

// Marks a wire, if it is one.
fn mark_wire(read: &mut [bool], wire: usize)
    ensures { spec.AreAdded read.old read.new (λ w. wire == w) }
{
    if wire < read.len() {
        read[wire] = true;
    }
}

// Marks the wires of a list.
fn mark_wires(read: &mut [bool], wires: &[usize])
    ensures { spec.AreAdded read.old read.new (λ w. list_any (λ b. b == w) wires.now) }
{
    for wire in wires {
        mark_wire(read, *wire);
    }
}

// Marks the wires that stand in an expression.
fn mark_expr(read: &mut [bool], expr: &Expr)
    ensures { spec.AreAdded read.old read.new (λ w. stands w (formula_of expr.now)) }
{
    match expr {
        Expr::Zero | Expr::One => {}
        Expr::Wire(wire) => mark_wire(read, *wire),
        Expr::Not(x) => mark_expr(read, x),
        Expr::And(x, y) | Expr::Or(x, y) | Expr::Xor(x, y) => {
            mark_expr(read, x);
            mark_expr(read, y);
        }
        Expr::Mux { select, low, high } => {
            mark_expr(read, select);
            mark_expr(read, low);
            mark_expr(read, high);
        }
    }
}

// Marks the wires that stand in an expression which is more than one wire.
fn mark_more(read: &mut [bool], expr: &Expr)
    ensures { spec.AreAdded read.old read.new (λ w. stands w (formula_of expr.now) && not (is_alone w (formula_of expr.now))) }
{
    match expr {
        Expr::Wire(_) => {}
        _ => mark_expr(read, expr),
    }
}

// Marks the wires that stand in equations.
fn mark_equations(read: &mut [bool], equations: &[Equation])
    ensures { spec.AreAdded read.old read.new (λ w. list_any (λ e. stands w (formula_of e.expr) && not (is_alone w (formula_of e.expr))) equations.now) }
{
    for equation in equations {
        mark_more(read, &equation.expr);
    }
}

// Marks the wires that stand in next expressions.
fn mark_registers(read: &mut [bool], registers: &[Register])
    ensures { spec.AreAdded read.old read.new (λ w. list_any (λ r. stands w (formula_of r.next)) registers.now) }
{
    for register in registers {
        mark_expr(read, &register.next);
    }
}

// Marks the bits of an output port.
fn mark_output(read: &mut [bool], port: &Port)
    ensures { spec.AreAdded read.old read.new (λ w. not (is_input port.now) && list_any (λ b. b == w) port.now.bits) }
{
    if port.way == Way::Output {
        mark_wires(read, port.bits.as_slice());
    }
}

// Marks the bits of output ports.
fn mark_outputs(read: &mut [bool], ports: &[Port])
    ensures { spec.AreAdded read.old read.new (λ w. list_any (λ p. not (is_input p) && list_any (λ b. b == w) p.bits) ports.now) }
{
    for port in ports {
        mark_output(read, port);
    }
}

// Marks the wires that are read by more than copies.
fn mark_net(read: &mut [bool], net: &Net)
    ensures { spec.AreAdded read.old read.new (λ w. is_read (plain_of net.now) w) }
{
    mark_equations(read, net.equations.as_slice());
    mark_registers(read, net.registers.as_slice());
    mark_outputs(read, net.ports.as_slice());
}

/// For each wire whether it stands in an equation that is more than that wire alone, in a next expression, or in an output port.
pub fn read_wires(alloc: Global, net: &Net) -> Result<Vec<bool>, Memory>
    ensures { IfOk result (λ read. (w : ℕ) → w < length net.now.wires → spec.is_set read.items w ≡ is_read (plain_of net.now) w) }
{
    let mut read = vec![in alloc; false; net.wires.len()]?;
    mark_net(read.as_mut_slice(), net);
    Ok(read)
}
