//! Wires that are wrong, and nets without undriven wires.

use agm_bits::{List, Memory};
use agm_net::{Expr, Net, Way};
use form_bits::Bit;
use std::alloc::Global;
use std::test::Fail;
use test_netlists::parts::{PortRow, names_of, ports_of};
use wire_drivers::{Flop, Line, first_wrong, kept_net};

/// A rule; plain equations from a wire to a wire, over the wires a, b, c, d and e with the input port a and the output port e;
/// the first that is wrong, and else the numbers of the equations in the net and how many wires it has.
type Case<'t> = (
    &'t str,
    &'t [(usize, usize)],
    Option<(usize, usize)>,
    &'t [(usize, usize)],
    usize,
);

const CASES: [Case<'static>; 7] = [
    (
        "a wire that is not read is left out",
        &[(4, 0)],
        None,
        &[(1, 0)],
        2,
    ),
    (
        "one behind it has a lower number",
        &[(2, 0), (4, 2)],
        None,
        &[(1, 0), (2, 1)],
        3,
    ),
    (
        "a driven wire that is not read stays",
        &[(1, 0), (4, 0)],
        None,
        &[(1, 0), (2, 0)],
        3,
    ),
    ("an output without driver", &[(1, 0)], Some((4, 0)), &[], 0),
    (
        "a wire that is read without driver",
        &[(4, 3)],
        Some((3, 0)),
        &[],
        0,
    ),
    (
        "two drivers",
        &[(2, 0), (2, 0), (4, 0)],
        Some((2, 2)),
        &[],
        0,
    ),
    (
        "an input that is driven three times, before others",
        &[(0, 3), (0, 0)],
        Some((0, 3)),
        &[],
        0,
    ),
];

const WIRES: [&'static str; 5] = ["a", "b", "c", "d", "e"];

const PORTS: [PortRow<'static>; 2] = [
    ("a", Way::Input, None, &[0]),
    ("e", Way::Output, None, &[4]),
];

fn lines(alloc: Global, pairs: &[(usize, usize)]) -> Result<List<Line>, Memory> {
    let mut lines = List::new(alloc);
    for (target, value) in pairs {
        lines.push(Line {
            target: Bit::Wire(*target),
            expr: Expr::Wire(*value),
        })?;
    }
    Ok(lines)
}

// The first wire that is wrong over plain equations and these registers, and how many drivers it has.
fn wrong(
    alloc: Global,
    pairs: &[(usize, usize)],
    flops: &[Flop],
) -> Result<Option<(usize, usize)>, Memory> {
    let ports = ports_of(alloc, &PORTS)?;
    let wires = names_of(alloc, &WIRES)?;
    let lines = lines(alloc, pairs)?;
    let (ports, wires, lines) = (ports.as_slice(), wires.as_slice(), lines.as_slice());
    match first_wrong(alloc, ports, wires, lines, flops)? {
        Some(found) => Ok(Some((found.wire, found.drivers))),
        None => Ok(None),
    }
}

fn kept_pairs(alloc: Global, net: &Net) -> Result<List<(usize, usize)>, Memory> {
    let mut pairs = List::new(alloc);
    for equation in net.equations.as_slice() {
        if let Expr::Wire(value) = &equation.expr {
            pairs.push((equation.wire, *value))?;
        }
    }
    Ok(pairs)
}

// Whether the net of plain equations has these equations and so many wires.
fn keeps(
    alloc: Global,
    pairs: &[(usize, usize)],
    equations: &[(usize, usize)],
    count: usize,
) -> Result<bool, Memory> {
    let ports = ports_of(alloc, &PORTS)?;
    let wires = names_of(alloc, &WIRES)?;
    let lines = lines(alloc, pairs)?;
    let (ports, wires, lines) = (ports.as_slice(), wires.as_slice(), lines.as_slice());
    let net = kept_net(alloc, ports, wires, lines, &[], None)?;
    let kept = kept_pairs(alloc, &net)?;
    Ok(kept.as_slice() == equations && net.wires.len() == count)
}

// Fails at the first case that is judged otherwise.
fn judge_all(alloc: Global, cases: &[Case<'_>]) -> Result<(), Fail> {
    for (rule, pairs, wanted, equations, count) in cases {
        let is_told = wrong(alloc, pairs, &[])? == *wanted;
        if !is_told || wanted.is_none() && !keeps(alloc, pairs, equations, *count)? {
            return Err(Fail::from(*rule));
        }
    }
    Ok(())
}

#[test]
fn wires_are_counted(rt: HostRuntime) -> Result<(), Fail> {
    judge_all(rt.alloc(), &CASES)
}

// The first wire that is wrong where a register has these bits and reads wire c.
fn wrong_flop(alloc: Global, q: Bit, clock: Bit) -> Result<Option<(usize, usize)>, Memory> {
    let mut flops = List::new(alloc);
    flops.push(Flop {
        q,
        next: Expr::Wire(2),
        clock,
    })?;
    wrong(alloc, &[(2, 0)], flops.as_slice())
}

#[test]
fn registers_drive_and_read(rt: HostRuntime) -> Result<(), Fail> {
    let alloc = rt.alloc();
    assert!(rt; wrong_flop(alloc, Bit::Wire(4), Bit::Wire(0))?.is_none());
    assert!(rt; wrong_flop(alloc, Bit::Wire(4), Bit::Wire(1))? == Some((1, 0)));
    assert!(rt; wrong_flop(alloc, Bit::Constant(true), Bit::Wire(0))? == Some((4, 0)));
    Ok(())
}
