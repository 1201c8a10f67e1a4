//! Annotated modules, with the answers of both calls.

use crate::designs::design_of;
use agm_bits::{List, Memory, Name};
use agm_net::{Equation, Expr, Mark, Marks, Net, Port, Range, Register, Way, not_of};
use annotations::{AnnotationFault, annotate, clocks};
use std::alloc::{AllocError, Global};
use std::test::Fail;
use top_module::{PortFacts, find_clock, find_top, port_facts};
use verilog_reader::Module;

/// A rule, a design that shows it, and the answers: a letter for each port's mark, and the clock's port.
type PortRow = (
    &'static str,
    &'static str,
    Result<&'static str, AnnotationFault>,
    Result<Option<usize>, AnnotationFault>,
);

const PORTS: [PortRow; 39] = [
    (
        "secure, public and unmarked ports",
        "module m(a, b, c, y); (* AGEMA = \"secure\" *) input a; (* AGEMA = \"public\" *) input b; input c; (* AGEMA = \"secure\" *) output y; endmodule",
        Ok("SPUS"),
        Ok(None),
    ),
    (
        "a clock",
        "module m(c, a); (* AGEMA = \"clock\" *) input c; (* AGEMA = \"secure\" *) input a; endmodule",
        Ok("CS"),
        Ok(Some(0)),
    ),
    (
        "a mark before a wire",
        "module m(a, y); input a; output y; (* AGEMA = \"secure\" *) wire a; endmodule",
        Ok("SU"),
        Ok(None),
    ),
    (
        "the same mark twice",
        "module m(a); (* AGEMA = \"secure\", AGEMA = \"secure\" *) input a; (* AGEMA = \"secure\" *) wire a; endmodule",
        Ok("S"),
        Ok(None),
    ),
    (
        "a mark for several names",
        "module m(a, b, y); (* AGEMA = \"secure\" *) input a, b; (* AGEMA = \"public\" *) output [3:0] y; endmodule",
        Ok("SSP"),
        Ok(None),
    ),
    (
        "ANSI ports",
        "module m((* AGEMA = \"secure\" *) input a, b, (* AGEMA = \"clock\" *) input c); endmodule",
        Ok("SSC"),
        Ok(Some(2)),
    ),
    (
        "marks of a module inside",
        "module n(c); (* AGEMA = \"clock\" *) input c; endmodule (* top *) module m(c, a); n u(); input c; (* AGEMA = \"secure\" *) input a; endmodule",
        Ok("US"),
        Ok(None),
    ),
    (
        "names that only look reserved",
        "module m(agm, a_agm_, AGM_x); (* AGEMA = \"secure\" *) input agm, a_agm_; (* AGEMA = \"public\" *) input AGM_x; endmodule",
        Ok("SSP"),
        Ok(None),
    ),
    (
        "a reserved input",
        "module m(agm_a); (* AGEMA = \"secure\" *) input agm_a; endmodule",
        Err(AnnotationFault::Reserved { port: 0 }),
        Ok(None),
    ),
    (
        "a reserved output",
        "module m(a, agm_); (* AGEMA = \"secure\" *) input a; output agm_; endmodule",
        Err(AnnotationFault::Reserved { port: 1 }),
        Ok(None),
    ),
    (
        "a reserved clock",
        "module m(a, agm_clk); (* AGEMA = \"secure\" *) input a; (* AGEMA = \"clock\" *) input agm_clk; endmodule",
        Err(AnnotationFault::Reserved { port: 1 }),
        Ok(Some(1)),
    ),
    (
        "a reserved name with a wrong value",
        "module m(agm_a); (* AGEMA *) input agm_a; endmodule",
        Err(AnnotationFault::Reserved { port: 0 }),
        Err(AnnotationFault::Value { port: 0 }),
    ),
    (
        "a wrong value before a reserved name",
        "module m(a, agm_b); (* AGEMA *) input a; input agm_b; endmodule",
        Err(AnnotationFault::Value { port: 0 }),
        Err(AnnotationFault::Value { port: 0 }),
    ),
    (
        "a reserved name before a wrong value",
        "module m(agm_b, a); (* AGEMA *) input a; input agm_b; endmodule",
        Err(AnnotationFault::Reserved { port: 0 }),
        Err(AnnotationFault::Value { port: 1 }),
    ),
    (
        "a reserved name, and no secure input",
        "module m(agm_a); input agm_a; endmodule",
        Err(AnnotationFault::Reserved { port: 0 }),
        Ok(None),
    ),
    (
        "a mark without a value",
        "module m(a); (* AGEMA *) input a; endmodule",
        Err(AnnotationFault::Value { port: 0 }),
        Err(AnnotationFault::Value { port: 0 }),
    ),
    (
        "a mark with a number",
        "module m(a, b); (* AGEMA = \"secure\" *) input a; (* AGEMA = 1 *) input b; endmodule",
        Err(AnnotationFault::Value { port: 1 }),
        Err(AnnotationFault::Value { port: 1 }),
    ),
    (
        "a mark with a constant",
        "module m(a, b); (* AGEMA = \"secure\" *) input a; (* AGEMA = 1'b1 *) input b; endmodule",
        Err(AnnotationFault::Value { port: 1 }),
        Err(AnnotationFault::Value { port: 1 }),
    ),
    (
        "a mark with another text",
        "module m(a); (* AGEMA = \"Secure\" *) input a; endmodule",
        Err(AnnotationFault::Value { port: 0 }),
        Err(AnnotationFault::Value { port: 0 }),
    ),
    (
        "an output as a clock",
        "module m(a, y); (* AGEMA = \"secure\" *) input a; (* AGEMA = \"clock\" *) output y; endmodule",
        Err(AnnotationFault::Value { port: 1 }),
        Err(AnnotationFault::Value { port: 1 }),
    ),
    (
        "a clock with a range",
        "module m(a, c); (* AGEMA = \"secure\" *) input a; (* AGEMA = \"clock\" *) input [0:0] c; endmodule",
        Err(AnnotationFault::Value { port: 1 }),
        Err(AnnotationFault::Value { port: 1 }),
    ),
    (
        "a wrong mark before a wire",
        "module m(a); (* AGEMA = \"secure\" *) input a; (* AGEMA = \"no\" *) wire a; endmodule",
        Err(AnnotationFault::Value { port: 0 }),
        Err(AnnotationFault::Value { port: 0 }),
    ),
    (
        "a wrong value, and two that differ",
        "module m(a); (* AGEMA = \"secure\", AGEMA = \"public\", AGEMA = 0 *) input a; endmodule",
        Err(AnnotationFault::Value { port: 0 }),
        Err(AnnotationFault::Value { port: 0 }),
    ),
    (
        "two that differ, before a wrong value",
        "module m(a, b); (* AGEMA = \"secure\", AGEMA = \"public\" *) input a; (* AGEMA = 0 *) input b; endmodule",
        Err(AnnotationFault::Twice { port: 0 }),
        Err(AnnotationFault::Twice { port: 0 }),
    ),
    (
        "two marks in one declaration",
        "module m(a); (* AGEMA = \"secure\", AGEMA = \"public\" *) input a; endmodule",
        Err(AnnotationFault::Twice { port: 0 }),
        Err(AnnotationFault::Twice { port: 0 }),
    ),
    (
        "two marks before two declarations",
        "module m(b, a); (* AGEMA = \"secure\" *) input a, b; (* AGEMA = \"public\" *) wire a; endmodule",
        Err(AnnotationFault::Twice { port: 1 }),
        Err(AnnotationFault::Twice { port: 1 }),
    ),
    (
        "a clock that is secure",
        "module m(c); (* AGEMA = \"clock\" *) input c; (* AGEMA = \"secure\" *) wire c; endmodule",
        Err(AnnotationFault::Twice { port: 0 }),
        Err(AnnotationFault::Twice { port: 0 }),
    ),
    (
        "a clock that is public",
        "module m(c, a); (* AGEMA = \"public\" *) (* AGEMA = \"clock\" *) input c; (* AGEMA = \"secure\" *) input a; endmodule",
        Err(AnnotationFault::Twice { port: 0 }),
        Err(AnnotationFault::Twice { port: 0 }),
    ),
    (
        "a second clock that is secure",
        "module m(c, d); (* AGEMA = \"clock\" *) input c, d; (* AGEMA = \"secure\" *) wire d; endmodule",
        Err(AnnotationFault::Twice { port: 1 }),
        Err(AnnotationFault::Twice { port: 1 }),
    ),
    (
        "two marks behind a second clock",
        "module m(c, d, a); (* AGEMA = \"clock\" *) input c, d; (* AGEMA = \"secure\" *) input a; (* AGEMA = \"public\" *) wire a; endmodule",
        Err(AnnotationFault::SecondClock { port: 1 }),
        Err(AnnotationFault::SecondClock { port: 1 }),
    ),
    (
        "two clocks",
        "module m(c, d, a); (* AGEMA = \"clock\" *) input c, d; (* AGEMA = \"secure\" *) input a; endmodule",
        Err(AnnotationFault::SecondClock { port: 1 }),
        Err(AnnotationFault::SecondClock { port: 1 }),
    ),
    (
        "two clocks, apart",
        "module m(a, c, b, d); (* AGEMA = \"clock\" *) input d; (* AGEMA = \"clock\" *) input c; (* AGEMA = \"secure\" *) input a, b; endmodule",
        Err(AnnotationFault::SecondClock { port: 3 }),
        Err(AnnotationFault::SecondClock { port: 3 }),
    ),
    (
        "three clocks",
        "module m(c, d, e); (* AGEMA = \"clock\" *) input c, d, e; endmodule",
        Err(AnnotationFault::SecondClock { port: 1 }),
        Err(AnnotationFault::SecondClock { port: 1 }),
    ),
    (
        "a second clock, and no secure input",
        "module m(c, d); input c, d; (* AGEMA = \"clock\" *) wire c, d; endmodule",
        Err(AnnotationFault::SecondClock { port: 1 }),
        Err(AnnotationFault::SecondClock { port: 1 }),
    ),
    (
        "two clocks, the first with a range",
        "module m(c, d); (* AGEMA = \"clock\" *) input [1:0] c; (* AGEMA = \"clock\" *) input d; endmodule",
        Err(AnnotationFault::Value { port: 0 }),
        Err(AnnotationFault::Value { port: 0 }),
    ),
    (
        "no mark",
        "module m(a, y); input a; output y; endmodule",
        Err(AnnotationFault::NoSecure),
        Ok(None),
    ),
    (
        "a secure output alone",
        "module m(a, y); (* AGEMA = \"public\" *) input a; (* AGEMA = \"secure\" *) output y; endmodule",
        Err(AnnotationFault::NoSecure),
        Ok(None),
    ),
    (
        "a clock alone",
        "module m(c); (* AGEMA = \"clock\" *) input c; endmodule",
        Err(AnnotationFault::NoSecure),
        Ok(Some(0)),
    ),
    (
        "no ports",
        "module m; endmodule",
        Err(AnnotationFault::NoSecure),
        Ok(None),
    ),
];

/// Without a clock, so that a register is wrong, whatever its clock is.
const NO_CLOCK: [PortRow; 3] = [
    (
        "a clock that is not marked",
        "module m(c, a); input c; (* AGEMA = \"secure\" *) input a; endmodule",
        Err(AnnotationFault::NoClock),
        Err(AnnotationFault::NoClock),
    ),
    (
        "a public clock",
        "module m(c, a); (* AGEMA = \"public\" *) input c; (* AGEMA = \"secure\" *) input a; endmodule",
        Err(AnnotationFault::NoClock),
        Err(AnnotationFault::NoClock),
    ),
    (
        "no secure input, and no clock",
        "module m(c, a); input c, a; endmodule",
        Err(AnnotationFault::NoSecure),
        Err(AnnotationFault::NoClock),
    ),
];

/// What an equation sets its wire to.
#[derive(Clone, Copy, Debug)]
enum Source {
    Copy(usize),
    Not(usize),
    And(usize, usize),
}

/// A rule, a net that shows it, and its fault: the number of inner wires, the equations, and for each register its output, the wire
/// that it stores, and its clock. The ports are those of `MODULE`, so wire 0 is the clock, 1 an input and 2 an output; inner wires
/// are 3 and higher. A wire that nothing else drives is 0 in every cycle.
type UseRow = (
    &'static str,
    usize,
    &'static [(usize, Source)],
    &'static [(usize, usize, usize)],
    Option<AnnotationFault>,
);

const MODULE: &str =
    "module m(c, a, y); (* AGEMA = \"clock\" *) input c; (* AGEMA = \"secure\" *) input a; output y; endmodule";

const USES: [UseRow; 19] = [
    ("a register", 1, &[(2, Source::Copy(3))], &[(3, 1, 0)], None),
    (
        "no register, and a clock",
        0,
        &[(2, Source::Not(1))],
        &[],
        None,
    ),
    (
        "a chain of copies, the last of them first",
        4,
        &[
            (3, Source::Copy(4)),
            (4, Source::Copy(5)),
            (5, Source::Copy(0)),
        ],
        &[(6, 1, 3)],
        None,
    ),
    (
        "two copies of the clock",
        4,
        &[(3, Source::Copy(0)), (4, Source::Copy(0))],
        &[(5, 1, 3), (6, 5, 4)],
        None,
    ),
    (
        "copies in a circle",
        3,
        &[
            (3, Source::Copy(4)),
            (4, Source::Copy(3)),
            (2, Source::Copy(3)),
        ],
        &[(5, 1, 0)],
        None,
    ),
    (
        "a data input as a clock",
        1,
        &[],
        &[(3, 1, 1)],
        Some(AnnotationFault::ClockUse { wire: 1 }),
    ),
    (
        "an inverted clock",
        2,
        &[(3, Source::Not(0))],
        &[(4, 1, 3)],
        Some(AnnotationFault::ClockUse { wire: 3 }),
    ),
    (
        "a copy of an inverted clock",
        3,
        &[(3, Source::Not(0)), (4, Source::Copy(3))],
        &[(5, 1, 4)],
        Some(AnnotationFault::ClockUse { wire: 4 }),
    ),
    (
        "a clock from a circle",
        3,
        &[(3, Source::Copy(4)), (4, Source::Copy(3))],
        &[(5, 1, 4)],
        Some(AnnotationFault::ClockUse { wire: 4 }),
    ),
    (
        "a register's output as a clock",
        2,
        &[],
        &[(3, 1, 0), (4, 1, 3)],
        Some(AnnotationFault::ClockUse { wire: 3 }),
    ),
    (
        "the first register's clock",
        2,
        &[],
        &[(4, 1, 2), (3, 1, 1)],
        Some(AnnotationFault::ClockUse { wire: 2 }),
    ),
    (
        "an output that copies the clock",
        0,
        &[(2, Source::Copy(0))],
        &[],
        Some(AnnotationFault::ClockUse { wire: 2 }),
    ),
    (
        "the clock in an operator",
        1,
        &[(3, Source::And(1, 0))],
        &[],
        Some(AnnotationFault::ClockUse { wire: 0 }),
    ),
    (
        "the clock as a next value",
        1,
        &[],
        &[(3, 0, 0)],
        Some(AnnotationFault::ClockUse { wire: 0 }),
    ),
    (
        "a copy as a next value",
        2,
        &[(3, Source::Copy(0))],
        &[(4, 3, 0)],
        Some(AnnotationFault::ClockUse { wire: 3 }),
    ),
    (
        "a copy in an operator",
        2,
        &[(3, Source::Copy(0)), (4, Source::And(3, 3))],
        &[],
        Some(AnnotationFault::ClockUse { wire: 3 }),
    ),
    (
        "two clock wires that are read",
        3,
        &[
            (4, Source::Copy(0)),
            (3, Source::Copy(4)),
            (5, Source::And(4, 3)),
        ],
        &[],
        Some(AnnotationFault::ClockUse { wire: 3 }),
    ),
    (
        "a wrong clock, and the clock in an operator",
        2,
        &[(3, Source::And(0, 1))],
        &[(4, 1, 1)],
        Some(AnnotationFault::ClockUse { wire: 1 }),
    ),
    (
        "a register behind a right one",
        2,
        &[(2, Source::Not(0))],
        &[(3, 1, 0), (4, 1, 1)],
        Some(AnnotationFault::ClockUse { wire: 1 }),
    ),
];

fn expr(alloc: Global, source: Source) -> Result<Expr, Memory> {
    match source {
        Source::Copy(wire) => Ok(Expr::Wire(wire)),
        Source::Not(wire) => not_of(alloc, wire),
        Source::And(x, y) => {
            let x = Box::new(alloc, Expr::Wire(x))?;
            let y = Box::new(alloc, Expr::Wire(y))?;
            Ok(Expr::And(x, y))
        }
    }
}

fn bit_name(alloc: Global, name: &Name, number: u32) -> Result<Name, Memory> {
    let select = format!(in alloc; "[{number}]")?;
    let mut name = Name::from_slice(alloc, name.as_slice())?;
    name.extend(select.as_bytes())?;
    Ok(name)
}

// The bits of a range of at most eight, the next wires.
fn push_bits(
    alloc: Global,
    name: &Name,
    range: Range,
    bits: &mut List<usize>,
    wires: &mut List<Name>,
) -> Result<(), Memory> {
    for step in 0..8 {
        if step > range.msb.saturating_sub(range.lsb) {
            return Ok(());
        }
        bits.push(wires.len())?;
        wires.push(bit_name(alloc, name, range.msb.saturating_sub(step))?)?;
    }
    Ok(())
}

// The bits of a port, the next wires.
fn bits_of(
    alloc: Global,
    name: &Name,
    range: Option<Range>,
    wires: &mut List<Name>,
) -> Result<List<usize>, Memory> {
    let mut bits = List::new(alloc);
    match range {
        None => {
            bits.push(wires.len())?;
            wires.push(Name::from_slice(alloc, name.as_slice())?)?;
        }
        Some(range) => push_bits(alloc, name, range, &mut bits, wires)?,
    }
    Ok(bits)
}

// A port, whose bits are the next wires.
fn port(
    alloc: Global,
    name: &Name,
    facts: PortFacts,
    wires: &mut List<Name>,
) -> Result<Port, Fail> {
    let Some(kind) = facts.kind else {
        return Err(Fail::from("no way"));
    };
    let bits = bits_of(alloc, name, kind.range, wires)?;
    let name = Name::from_slice(alloc, name.as_slice())?;
    Ok(Port {
        name,
        way: kind.way,
        range: kind.range,
        bits,
    })
}

fn ports(alloc: Global, unit: &Module, wires: &mut List<Name>) -> Result<List<Port>, Fail> {
    let facts = port_facts(alloc, unit)?;
    let mut ports = List::new(alloc);
    for (name, facts) in unit.ports.as_slice().iter().zip(facts.as_slice()) {
        ports.push(port(alloc, name, *facts, wires)?)?;
    }
    Ok(ports)
}

fn inner_name(alloc: Global, number: usize) -> Result<Name, Memory> {
    let text = format!(in alloc; "inner{number}")?;
    Name::from_slice(alloc, text.as_bytes())
}

// Which wires are driven.
fn driven(
    alloc: Global,
    ports: &[Port],
    equations: &[(usize, Source)],
    registers: &[(usize, usize, usize)],
) -> Result<List<usize>, Memory> {
    let mut driven = List::new(alloc);
    for port in ports {
        if port.way == Way::Input {
            driven.extend(port.bits.as_slice())?;
        }
    }
    for (wire, _) in equations {
        driven.push(*wire)?;
    }
    for (wire, _, _) in registers {
        driven.push(*wire)?;
    }
    Ok(driven)
}

fn equations_of(
    alloc: Global,
    n: usize,
    driven: &[usize],
    equations: &[(usize, Source)],
) -> Result<List<Equation>, Memory> {
    let mut list = List::new(alloc);
    for (wire, source) in equations {
        let (wire, expr) = (*wire, expr(alloc, *source)?);
        list.push(Equation { wire, expr })?;
    }
    for wire in 0..n {
        if !driven.contains(&wire) {
            list.push(Equation {
                wire,
                expr: Expr::Zero,
            })?;
        }
    }
    Ok(list)
}

fn registers_of(
    alloc: Global,
    registers: &[(usize, usize, usize)],
) -> Result<List<Register>, Memory> {
    let mut list = List::new(alloc);
    for (q, next, clock) in registers {
        list.push(Register {
            q: *q,
            next: Expr::Wire(*next),
            clock: *clock,
        })?;
    }
    Ok(list)
}

// A net with the ports of a module.
fn net(
    alloc: Global,
    unit: &Module,
    inner: usize,
    equations: &[(usize, Source)],
    registers: &[(usize, usize, usize)],
) -> Result<Net, Fail> {
    let mut wires = List::new(alloc);
    let ports = ports(alloc, unit, &mut wires)?;
    for number in 0..inner {
        wires.push(inner_name(alloc, number)?)?;
    }
    let driven = driven(alloc, ports.as_slice(), equations, registers)?;
    let equations = equations_of(alloc, wires.len(), driven.as_slice(), equations)?;
    let registers = registers_of(alloc, registers)?;
    let clock = find_clock(alloc, unit)?;
    match Net::new(alloc, ports, wires, equations, registers, clock) {
        Ok(net) => Ok(net),
        Err(_) => Err(Fail::from("no net")),
    }
}

fn letter(mark: Mark) -> char {
    match mark {
        Mark::Unmarked => 'U',
        Mark::Secure => 'S',
        Mark::Public => 'P',
        Mark::Clock => 'C',
    }
}

fn letters(alloc: Global, marks: &Marks) -> Result<String, AllocError> {
    let mut text = String::new(alloc);
    for mark in marks.kinds.as_slice() {
        text.push(letter(*mark))?;
    }
    Ok(text)
}

type Answers = (
    Result<String, AnnotationFault>,
    Result<Option<usize>, AnnotationFault>,
);

// The answers of both calls for a net with the ports of a design's top.
fn answers(
    alloc: Global,
    text: &str,
    inner: usize,
    equations: &[(usize, Source)],
    registers: &[(usize, usize, usize)],
) -> Result<Answers, Fail> {
    let design = design_of(alloc, text)?;
    let Ok(number) = find_top(alloc, &design) else {
        return Err(Fail::from("no top"));
    };
    let net = net(
        alloc,
        &design.modules.as_slice()[number],
        inner,
        equations,
        registers,
    )?;
    let marks = match annotate(alloc, &design, &net) {
        Ok(marks) => Ok(letters(alloc, &marks)?),
        Err(fault) => Err(fault),
    };
    Ok((marks, clocks(alloc, &design, &net)))
}

fn has_marks(
    found: &Result<String, AnnotationFault>,
    wanted: Result<&str, AnnotationFault>,
) -> bool {
    match (found, wanted) {
        (Ok(found), Ok(wanted)) => found.as_str() == wanted,
        (Err(found), Err(wanted)) => *found == wanted,
        _ => false,
    }
}

// Fails at the first module with other answers, beside inner wires and registers.
fn judge_ports(
    alloc: Global,
    rows: &[PortRow],
    inner: usize,
    registers: &[(usize, usize, usize)],
) -> Result<(), Fail> {
    for (rule, text, marks, clock) in rows {
        let found = answers(alloc, text, inner, &[], registers)?;
        if !has_marks(&found.0, *marks) || found.1 != *clock {
            return Err(Fail::from(*rule));
        }
    }
    Ok(())
}

// Fails at the first net with another fault.
fn judge_clocks(alloc: Global, rows: &[UseRow]) -> Result<(), Fail> {
    for (rule, inner, equations, registers, fault) in rows {
        let found = answers(alloc, MODULE, *inner, equations, registers)?;
        if found.0.err() != *fault || found.1.err() != *fault {
            return Err(Fail::from(*rule));
        }
    }
    Ok(())
}

#[test]
fn ports_are_judged(rt: HostRuntime) -> Result<(), Fail> {
    judge_ports(rt.alloc(), &PORTS, 0, &[])
}

#[test]
fn registers_want_a_clock(rt: HostRuntime) -> Result<(), Fail> {
    judge_ports(rt.alloc(), &NO_CLOCK, 1, &[(2, 1, 0)])
}

#[test]
fn clocks_are_judged(rt: HostRuntime) -> Result<(), Fail> {
    judge_clocks(rt.alloc(), &USES)
}
