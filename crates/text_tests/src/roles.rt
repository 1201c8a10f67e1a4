//! Roles of ports, and plain nets: one row for each rule.

use agm_bits::{List, Memory};
use agm_net::{Equation, Expr, Net, Range, Register, Role, Way, not_of, xor_of};
use std::alloc::Global;
use std::test::Fail;
use test_netlists::parts::{names_of, ports_of};

const ROLES: [(&str, Role); 20] = [
    ("agm_s0_x", Role::Share(0)),
    ("agm_s12_x", Role::Share(12)),
    ("agm_s1_2_x", Role::Share(1)),
    ("agm_s4294967295_x", Role::Share(u32::MAX)),
    ("agm_s4294967296_x", Role::Public),
    ("agm_s01_x", Role::Public),
    ("agm_s_x", Role::Public),
    ("agm_s+1_x", Role::Public),
    ("agm_s1x_", Role::Public),
    ("agm_s0_", Role::Public),
    ("agm_s0", Role::Public),
    ("agm_q_s0", Role::Share(0)),
    ("agm_q_s10", Role::Share(10)),
    ("agm_q_s00", Role::Public),
    ("agm_q_s", Role::Public),
    ("agm_q_s1_", Role::Public),
    ("agm_q_p", Role::Public),
    ("agm_r", Role::Random),
    ("agm_clk", Role::Clock),
    ("agm_load", Role::Public),
];

// A net with one port of this name.
fn port_net(alloc: Global, text: &str) -> Result<Option<Net>, Memory> {
    let wires = names_of(alloc, &[text])?;
    let ports = ports_of(alloc, &[(text, Way::Input, None, &[0])])?;
    let (equations, registers) = (List::new(alloc), List::new(alloc));
    Ok(Net::new(alloc, ports, wires, equations, registers, None).ok())
}

// The role of a port of this name.
fn role_of(alloc: Global, text: &str) -> Result<Role, Fail> {
    match port_net(alloc, text)? {
        Some(net) if net.ports.len() == 1 => Ok(net.role(0)),
        _ => Err(Fail::from("no net")),
    }
}

#[test]
fn names_have_roles(rt: HostRuntime) -> Result<(), Fail> {
    for (text, role) in ROLES {
        assert!(rt; role_of(rt.alloc(), text)? == role, "of {text}");
    }
    Ok(())
}

// Forms of expressions.
#[derive(Clone, Copy)]
enum Form {
    One,
    Wire,
    Xor,
    NotNot,
    // A choice whose low side is this wire.
    Mux(usize),
    MuxNot,
}

const NETS: [(Form, Form, &str, &str, u32, bool); 14] = [
    (Form::Xor, Form::Wire, "w", "p", 65535, true),
    (Form::One, Form::Mux(3), "w", "p", 0, true),
    (Form::Wire, Form::Wire, "w", "p", 0, true),
    (Form::Mux(0), Form::Wire, "w", "p", 0, true),
    (Form::NotNot, Form::Wire, "w", "p", 0, false),
    (Form::MuxNot, Form::Wire, "w", "p", 0, false),
    (Form::Xor, Form::Mux(2), "w", "p", 0, false),
    (Form::Xor, Form::Xor, "w", "p", 0, false),
    (Form::Xor, Form::One, "w", "p", 0, false),
    (Form::Xor, Form::Wire, "w w", "p", 0, false),
    (Form::Xor, Form::Wire, "w", "", 0, false),
    (Form::Xor, Form::Wire, "w", "p", 65536, false),
    (Form::Xor, Form::Wire, "p", "p", 0, false),
    (Form::Xor, Form::Wire, "w", "a[1]", 0, true),
];

fn mux(alloc: Global, low: Expr) -> Result<Expr, Memory> {
    let select = Box::new(alloc, Expr::Wire(0))?;
    let low = Box::new(alloc, low)?;
    let high = Box::new(alloc, Expr::Wire(1))?;
    Ok(Expr::Mux { select, low, high })
}

fn expr(alloc: Global, form: Form) -> Result<Expr, Memory> {
    match form {
        Form::One => Ok(Expr::One),
        Form::Wire => Ok(Expr::Wire(0)),
        Form::Xor => xor_of(alloc, 0, 1),
        Form::NotNot => Ok(Expr::Not(Box::new(alloc, not_of(alloc, 0)?)?)),
        Form::Mux(low) => mux(alloc, Expr::Wire(low)),
        Form::MuxNot => mux(alloc, not_of(alloc, 0)?),
    }
}

fn equations_of(alloc: Global, form: Form) -> Result<List<Equation>, Memory> {
    let expr = expr(alloc, form)?;
    let mut equations = List::new(alloc);
    equations.push(Equation { wire: 2, expr })?;
    equations.push(Equation {
        wire: 5,
        expr: Expr::Zero,
    })?;
    Ok(equations)
}

fn registers_of(alloc: Global, form: Form) -> Result<List<Register>, Memory> {
    let next = expr(alloc, form)?;
    let mut registers = List::new(alloc);
    registers.push(Register {
        q: 3,
        next,
        clock: 0,
    })?;
    Ok(registers)
}

// A net whose wires are a[1], a[0], an equation's, a register's, the bit of a port with one bit, and one more equation's.
fn net(
    alloc: Global,
    form: Form,
    next: Form,
    wire: &str,
    port: &str,
    number: u32,
) -> Result<Option<Net>, Memory> {
    let bit = format!(in alloc; "{port}[{number}]")?;
    let wires = names_of(alloc, &["a[1]", "a[0]", "y", "q", bit.as_str(), wire])?;
    let both = Range { msb: 1, lsb: 0 };
    let one = Range {
        msb: number,
        lsb: number,
    };
    let ports = ports_of(
        alloc,
        &[
            ("a", Way::Input, Some(both), &[0, 1]),
            (port, Way::Input, Some(one), &[4]),
        ],
    )?;
    let equations = equations_of(alloc, form)?;
    let registers = registers_of(alloc, next)?;
    Ok(Net::new(alloc, ports, wires, equations, registers, None).ok())
}

// Fails at the first row whose net is plain and should not be, or the other way round.
fn judge(alloc: Global, rows: &[(Form, Form, &str, &str, u32, bool)]) -> Result<(), Fail> {
    for (form, next, wire, port, number, is_plain) in rows {
        match net(alloc, *form, *next, wire, port, *number)? {
            Some(net) if net.is_plain() == *is_plain => (),
            _ => return Err(Fail::from((*wire, *port, *number))),
        }
    }
    Ok(())
}

#[test]
fn nets_are_plain(rt: HostRuntime) -> Result<(), Fail> {
    judge(rt.alloc(), &NETS)
}
