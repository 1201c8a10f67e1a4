//! Whole designs, with the nets that they bind to or the rule that they break.

use crate::designs::design_of;
use agm_bits::Name;
use agm_net::{Expr, Net, Port, Way};
use bound_items::BindFault;
use cell_library::{Library, read_library};
use net_binding::bind;
use std::alloc::{AllocError, Global};
use std::test::Fail;
use test_netlists::bound::{CELLS, LIBRARY, NAMES, NETS, PINS, WIRES};
use test_netlists::words::{put_name, put_number, worded};

fn put_expr(alloc: Global, text: &mut String, expr: &Expr) -> Result<(), AllocError> {
    match expr {
        Expr::Zero => text.push('F'),
        Expr::One => text.push('T'),
        Expr::Wire(w) => put_number(alloc, text, *w as u128),
        Expr::Not(x) => {
            text.push('!')?;
            put_expr(alloc, text, x)
        }
        Expr::And(x, y) => {
            text.push('(')?;
            put_expr(alloc, text, x)?;
            text.push('&')?;
            put_expr(alloc, text, y)?;
            text.push(')')
        }
        Expr::Or(x, y) => {
            text.push('(')?;
            put_expr(alloc, text, x)?;
            text.push('|')?;
            put_expr(alloc, text, y)?;
            text.push(')')
        }
        Expr::Xor(x, y) => {
            text.push('(')?;
            put_expr(alloc, text, x)?;
            text.push('^')?;
            put_expr(alloc, text, y)?;
            text.push(')')
        }
        Expr::Mux { select, low, high } => {
            text.push('(')?;
            put_expr(alloc, text, select)?;
            text.push('?')?;
            put_expr(alloc, text, high)?;
            text.push(':')?;
            put_expr(alloc, text, low)?;
            text.push(')')
        }
    }
}

fn put_port(alloc: Global, text: &mut String, port: &Port) -> Result<(), AllocError> {
    put_name(text, port.name.as_slice())?;
    let mut before = if port.way == Way::Input { '<' } else { '>' };
    for bit in port.bits.as_slice() {
        text.push(before)?;
        put_number(alloc, text, *bit as u128)?;
        before = ',';
    }
    text.push(' ')
}

fn net_text(alloc: Global, net: &Net) -> Result<String, AllocError> {
    let mut text = String::new(alloc);
    for port in net.ports.as_slice() {
        put_port(alloc, &mut text, port)?;
    }
    text.push('|')?;
    for wire in net.wires.as_slice() {
        text.push(' ')?;
        put_name(&mut text, wire.as_slice())?;
    }
    text.push_str(" |")?;
    for equation in net.equations.as_slice() {
        text.push(' ')?;
        put_number(alloc, &mut text, equation.wire as u128)?;
        text.push('=')?;
        put_expr(alloc, &mut text, &equation.expr)?;
    }
    text.push_str(" |")?;
    for register in net.registers.as_slice() {
        text.push(' ')?;
        put_number(alloc, &mut text, register.q as u128)?;
        text.push('=')?;
        put_expr(alloc, &mut text, &register.next)?;
        text.push('@')?;
        put_number(alloc, &mut text, register.clock as u128)?;
    }
    if let Some(clock) = net.clock {
        text.push_str(" clock ")?;
        put_number(alloc, &mut text, clock as u128)?;
    }
    Ok(text)
}

// A word with two names behind it.
fn worded_twice(alloc: Global, word: &str, one: &Name, other: &Name) -> Result<String, AllocError> {
    let mut text = worded(alloc, word, one.as_slice())?;
    text.push(' ')?;
    put_name(&mut text, other.as_slice())?;
    Ok(text)
}

fn fault_text(alloc: Global, fault: &BindFault) -> Result<String, AllocError> {
    match fault {
        BindFault::UnknownCell { instance, cell } => {
            worded_twice(alloc, "UnknownCell", instance, cell)
        }
        BindFault::UnknownPin { instance, pin } => worded_twice(alloc, "UnknownPin", instance, pin),
        BindFault::UnknownWire { name } => worded(alloc, "UnknownWire", name.as_slice()),
        BindFault::Driven { wire, drivers } => {
            let mut text = worded(alloc, "Driven", wire.as_slice())?;
            text.push(' ')?;
            put_number(alloc, &mut text, *drivers as u128)?;
            Ok(text)
        }
        BindFault::Width { left, right } => format!(in alloc; "Width {left} {right}"),
        BindFault::Top { candidates } => format!(in alloc; "Top {candidates}"),
        BindFault::Recursive { module } => worded(alloc, "Recursive", module.as_slice()),
        BindFault::BarredCell { instance, cell, .. } => {
            worded_twice(alloc, "BarredCell", instance, cell)
        }
        BindFault::Clash { name } => worded(alloc, "Clash", name.as_slice()),
        BindFault::Memory => String::from_str(alloc, "memory"),
    }
}

// The net that a design binds to, or the rule that it breaks, as a text.
fn bound_text(alloc: Global, bound: &Result<Net, BindFault>) -> Result<String, AllocError> {
    match bound {
        Ok(net) => net_text(alloc, net),
        Err(fault) => fault_text(alloc, fault),
    }
}

fn text_of(alloc: Global, library: &Library, netlist: &str) -> Result<String, Fail> {
    let design = design_of(alloc, netlist)?;
    let bound = bind(alloc, library, &design);
    Ok(bound_text(alloc, &bound)?)
}

// Fails at the first design that doesn't bind so.
fn bind_all(alloc: Global, library: &Library, cases: &[(&str, &str, &str)]) -> Result<(), Fail> {
    for (rule, netlist, wanted) in cases {
        let text = text_of(alloc, library, netlist)?;
        if text.as_str() != *wanted {
            return Err(Fail::from(*rule));
        }
    }
    Ok(())
}

// The same over the library of a text.
fn bind_over(alloc: Global, library: &str, cases: &[(&str, &str, &str)]) -> Result<(), Fail> {
    let library = read_library(alloc, library.as_bytes())?;
    bind_all(alloc, &library, cases)
}

#[test]
fn nets_are_bound(rt: HostRuntime) -> Result<(), Fail> {
    bind_over(rt.alloc(), LIBRARY, &NETS)
}

#[test]
fn wires_are_bound(rt: HostRuntime) -> Result<(), Fail> {
    bind_over(rt.alloc(), LIBRARY, &WIRES)
}

#[test]
fn names_are_bound(rt: HostRuntime) -> Result<(), Fail> {
    bind_over(rt.alloc(), LIBRARY, &NAMES)
}

#[test]
fn pins_are_bound(rt: HostRuntime) -> Result<(), Fail> {
    bind_over(rt.alloc(), LIBRARY, &PINS)
}

#[test]
fn cells_are_bound(rt: HostRuntime) -> Result<(), Fail> {
    bind_over(rt.alloc(), LIBRARY, &CELLS)
}
