ghost use Rattle.std.specs.Prelude.{◌≡◌, ◌<◌, ◌+◌, ◌++◌, ◌∷◌, [], drop, length, IfOk};
ghost use Rattle.agm_net.specs.Formula.{formula_of};
ghost use Rattle.bound_items.specs.Events as event;
ghost use Rattle.bound_items.specs.Items as spec;
ghost use Rattle.bound_items.specs.State.{state_of, after, nothing, with_wire, with_line, with_flop, with_pin, first_of as first_pin_of, Gives};

use crate::{BindFault, Netlist, Pin};
use agm_bits::{List, Memory, Name};
use agm_net::Expr;
use form_bits::Bit;
use name_table::Names;
use std::alloc::Global;
use wire_drivers::{Flop, Line};

/// A netlist without anything.
pub fn empty_netlist(alloc: Global) -> Netlist
    ensures { state_of result ≡ nothing }
{
    Netlist {
        alloc,
        table: Names::new(alloc),
        wires: List::new(alloc),
        lines: List::new(alloc),
        flops: List::new(alloc),
        pin: None,
    }
}

/// Adds a wire, whose name is to be new.
pub(crate) fn add_wire(netlist: Netlist, name: Name) -> Result<Netlist, BindFault>
    ensures { Gives (state_of netlist) (event.wire name ∷ []) result }
{
    let mut table = netlist.table;
    let mut wires = netlist.wires;
    if !table.add(name.as_slice())?.is_new {
        return Err(BindFault::Clash { name });
    }
    wires.push(name)?;
    Ok(Netlist {
        alloc: netlist.alloc,
        table,
        wires,
        lines: netlist.lines,
        flops: netlist.flops,
        pin: netlist.pin,
    })
}

/// Adds an equation.
pub(crate) fn add_line(netlist: Netlist, target: Bit, expr: Expr) -> Result<Netlist, Memory>
    ensures { IfOk result (λ n. state_of n ≡ with_line (state_of netlist) (target, formula_of expr)) }
{
    let mut lines = netlist.lines;
    lines.push(Line { target, expr })?;
    Ok(Netlist {
        alloc: netlist.alloc,
        table: netlist.table,
        wires: netlist.wires,
        lines,
        flops: netlist.flops,
        pin: netlist.pin,
    })
}

/// Adds a register.
pub(crate) fn add_flop(netlist: Netlist, q: Bit, next: Expr, clock: Bit) -> Result<Netlist, Memory>
    ensures { IfOk result (λ n. state_of n ≡ with_flop (state_of netlist) (record { q = q; next = formula_of next; clock = clock })) }
{
    let mut flops = netlist.flops;
    flops.push(Flop { q, next, clock })?;
    Ok(Netlist {
        alloc: netlist.alloc,
        table: netlist.table,
        wires: netlist.wires,
        lines: netlist.lines,
        flops,
        pin: netlist.pin,
    })
}

// The first of two pins.
fn first_of(pin: Option<Pin>, name: Name, drivers: usize) -> Option<Pin>
    ensures { result ≡ first_pin_of pin name drivers }
{
    match pin {
        Some(pin) => Some(pin),
        None => Some(Pin { name, drivers }),
    }
}

/// Adds a pin that counts as a wire.
pub(crate) fn add_pin(netlist: Netlist, name: Name, drivers: usize) -> Netlist
    ensures { state_of result ≡ with_pin (state_of netlist) name drivers }
{
    Netlist {
        alloc: netlist.alloc,
        table: netlist.table,
        wires: netlist.wires,
        lines: netlist.lines,
        flops: netlist.flops,
        pin: first_of(netlist.pin, name, drivers),
    }
}

/// A bit as an expression.
pub(crate) fn bit_expr(bit: Bit) -> Expr
    ensures { formula_of result ≡ spec.bit_formula bit }
{
    match bit {
        Bit::Constant(false) => Expr::Zero,
        Bit::Constant(true) => Expr::One,
        Bit::Wire(wire) => Expr::Wire(wire),
    }
}

// Adds a plain equation.
fn add_bit(netlist: Netlist, target: Bit, value: Bit) -> Result<Netlist, Memory>
    ensures { IfOk result (λ n. state_of n ≡ with_line (state_of netlist) (target, spec.bit_formula value)) }
{
    add_line(netlist, target, bit_expr(value))
}

// Adds the plain equation at a place, where both have a bit there, and leaves those behind it.
fn add_at(netlist: Netlist, targets: &[Bit], values: &[Bit], i: usize) -> Result<Netlist, Memory>
    requires { i < length targets.now }
    ensures { IfOk result (λ n. after (state_of n) (spec.plain_lines (drop (i + 1) targets.now) (drop (i + 1) values.now)) ≡ after (state_of netlist) (spec.plain_lines (drop i targets.now) (drop i values.now))) }
{
    if i < values.len() {
        add_bit(netlist, targets[i], values[i])
    } else {
        Ok(netlist)
    }
}

/// Adds plain equations, bit by bit.
pub(crate) fn add_plain(
    netlist: Netlist,
    targets: &[Bit],
    values: &[Bit],
) -> Result<Netlist, Memory>
    ensures { IfOk result (λ n. state_of n ≡ after (state_of netlist) (spec.plain_lines targets.now values.now)) }
{
    let mut netlist = netlist;
    for i in 0..targets.len() {
        netlist = add_at(netlist, targets, values, i)?;
    }
    Ok(netlist)
}

/// A name inside an instance.
pub fn dotted(alloc: Global, instance: &Name, name: &Name) -> Result<Name, Memory>
    ensures { IfOk result (λ n. n ≡ spec.dotted instance.now name.now) }
{
    let mut text = Name::from_slice(alloc, instance.as_slice())?;
    text.push(b'.')?;
    text.extend(name.as_slice())?;
    Ok(text)
}
