//! Nets, and what is no net.

use agm_bits::{List, Memory};
use agm_net::{Equation, Expr, Net, NewNet, Range, Way};
use std::alloc::Global;
use std::test::Fail;
use test_netlists::parts::{PortRow, names_of, ports_of};

const A: PortRow<'static> = ("a", Way::Input, None, &[0]);

const B: PortRow<'static> = ("b", Way::Input, None, &[1]);

const Y: PortRow<'static> = ("y", Way::Output, None, &[2]);

// An input of two bits.
const X: PortRow<'static> = ("x", Way::Input, Some(Range { msb: 1, lsb: 0 }), &[0, 1]);

const NAMES: [&'static str; 3] = ["a", "b", "y"];

const BITS: [&'static str; 3] = ["x[1]", "x[0]", "y"];

fn ands(alloc: Global, wires: &[(usize, usize, usize)]) -> Result<List<Equation>, Memory> {
    let mut equations = List::new(alloc);
    for (wire, x, y) in wires {
        let x = Box::new(alloc, Expr::Wire(*x))?;
        let y = Box::new(alloc, Expr::Wire(*y))?;
        equations.push(Equation {
            wire: *wire,
            expr: Expr::And(x, y),
        })?;
    }
    Ok(equations)
}

// A net whose equations are ands of two wires.
fn net(
    alloc: Global,
    ports: &[PortRow<'_>],
    names: &[&str],
    wires_anded: &[(usize, usize, usize)],
    clock: Option<usize>,
) -> Result<Net, NewNet> {
    let ports = ports_of(alloc, ports)?;
    let wires = names_of(alloc, names)?;
    let equations = ands(alloc, wires_anded)?;
    Net::new(alloc, ports, wires, equations, List::new(alloc), clock)
}

#[test]
fn takes_nets(rt: HostRuntime) -> Result<(), Fail> {
    let and = net(rt.alloc(), &[A, B, Y], &NAMES, &[(2, 0, 1)], Some(0))?;
    assert!(rt; and.wire(b"y") == Some(2));
    assert!(rt; and.wire(b"c").is_none());
    assert!(rt; net(rt.alloc(), &[X, Y], &BITS, &[(2, 0, 1)], None).is_ok());
    Ok(())
}

// The wire that is told where parts make no net.
fn told(
    alloc: Global,
    ports: &[PortRow<'_>],
    names: &[&str],
    wires_anded: &[(usize, usize, usize)],
    clock: Option<usize>,
) -> Option<usize> {
    match net(alloc, ports, names, wires_anded, clock) {
        Err(NewNet::Bad { wire }) => Some(wire),
        _ => None,
    }
}

/// Ands over the wires `a`, `b` and `y`, and the wire that is told.
const WRONG_ANDS: [(&[(usize, usize, usize)], usize); 5] = [
    (&[(2, 0, 1), (2, 1, 0)], 2),
    (&[(2, 0, 1), (0, 1, 1)], 0),
    (&[(1, 0, 1), (1, 0, 0)], 1),
    (&[(2, 0, 1), (2, 0, 3)], 3),
    (&[], 2),
];

#[test]
fn refuses_drivers(rt: HostRuntime) {
    for (ands, wire) in WRONG_ANDS {
        assert!(rt; told(rt.alloc(), &[A, B, Y], &NAMES, ands, None) == Some(wire));
    }
}

#[test]
fn refuses_names(rt: HostRuntime) {
    let (names, ands) = (["a", "b", "y", "a"], [(2, 0, 1), (3, 0, 1)]);
    assert!(rt; told(rt.alloc(), &[A, B, Y], &names, &ands, None) == Some(3));
}

/// Ports over the wires `a`, `b` and `y`, and the clock: each wrong as a whole.
const WRONG_PORTS: [(&[PortRow<'static>], Option<usize>); 3] = [
    (&[A, B, ("y", Way::Output, None, &[3])], None),
    (&[A, B, Y, Y], None),
    (&[A, B, Y], Some(2)),
];

#[test]
fn refuses_ports(rt: HostRuntime) {
    for (ports, clock) in WRONG_PORTS {
        assert!(rt; told(rt.alloc(), ports, &NAMES, &[(2, 0, 1)], clock) == Some(3));
    }
}

/// Inputs of two bits whose wires do not have the names of their bits.
const WRONG_BITS: [PortRow<'static>; 3] = [
    ("x", Way::Input, Some(Range { msb: 1, lsb: 0 }), &[1, 0]),
    ("x", Way::Input, Some(Range { msb: 0, lsb: 1 }), &[0, 1]),
    (
        "x",
        Way::Input,
        Some(Range {
            msb: 0,
            lsb: u32::MAX,
        }),
        &[0, 1],
    ),
];

#[test]
fn refuses_bits(rt: HostRuntime) {
    for port in WRONG_BITS {
        assert!(rt; told(rt.alloc(), &[port, Y], &BITS, &[(2, 0, 1)], None) == Some(3));
    }
}
