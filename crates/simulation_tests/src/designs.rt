//! Nets that tests make.

use agm_bits::{List, Memory, Name};
use agm_net::{Equation, Expr, Net, NewNet, Port, Register, Way};
use std::alloc::Global;

/// What an equation or a next value is, over wires.
#[derive(Clone, Copy)]
pub(crate) enum Cell {
    One,
    Wire(usize),
    Not(usize),
    And(usize, usize),
    Or(usize, usize),
    /// An inversion of the first, or the second.
    NotOr(usize, usize),
    Xor(usize, usize),
    /// The choice, by the first wire, of the second where it is 0, else of the third.
    Mux(usize, usize, usize),
}

/// A net whose wires are named by numbers. Its first wires are inputs, each a port. Registers have wire 0 as their clock.
#[derive(Drop)]
pub(crate) struct Design<'d> {
    pub wires: usize,
    pub inputs: usize,
    pub outputs: &'d [usize],
    pub clock: Option<usize>,
    pub equations: &'d [(usize, Cell)],
    pub registers: &'d [(usize, Cell)],
}

fn name(alloc: Global, wire: usize) -> Result<Name, Memory> {
    let text = format!(in alloc; "w{wire}")?;
    Name::from_slice(alloc, text.as_bytes())
}

fn wire_of(alloc: Global, wire: usize) -> Result<Box<Expr>, Memory> {
    Ok(Box::new(alloc, Expr::Wire(wire))?)
}

fn expr_of(alloc: Global, cell: Cell) -> Result<Expr, Memory> {
    Ok(match cell {
        Cell::One => Expr::One,
        Cell::Wire(a) => Expr::Wire(a),
        Cell::Not(a) => Expr::Not(wire_of(alloc, a)?),
        Cell::And(a, b) => Expr::And(wire_of(alloc, a)?, wire_of(alloc, b)?),
        Cell::Or(a, b) => Expr::Or(wire_of(alloc, a)?, wire_of(alloc, b)?),
        Cell::NotOr(a, b) => {
            let inverted = Expr::Not(wire_of(alloc, a)?);
            Expr::Or(Box::new(alloc, inverted)?, wire_of(alloc, b)?)
        }
        Cell::Xor(a, b) => Expr::Xor(wire_of(alloc, a)?, wire_of(alloc, b)?),
        Cell::Mux(select, low, high) => Expr::Mux {
            select: wire_of(alloc, select)?,
            low: wire_of(alloc, low)?,
            high: wire_of(alloc, high)?,
        },
    })
}

fn port_of(alloc: Global, wire: usize, way: Way) -> Result<Port, Memory> {
    Ok(Port {
        name: name(alloc, wire)?,
        way,
        range: None,
        bits: List::from_slice(alloc, &[wire])?,
    })
}

fn ports_of(alloc: Global, design: &Design) -> Result<List<Port>, Memory> {
    let mut ports = List::new(alloc);
    for wire in 0..design.inputs {
        ports.push(port_of(alloc, wire, Way::Input)?)?;
    }
    for wire in design.outputs {
        ports.push(port_of(alloc, *wire, Way::Output)?)?;
    }
    Ok(ports)
}

/// Equations of wires.
pub(crate) fn equations_of(
    alloc: Global,
    lines: &[(usize, Cell)],
) -> Result<List<Equation>, Memory> {
    let mut equations = List::new(alloc);
    for (wire, cell) in lines {
        let expr = expr_of(alloc, *cell)?;
        equations.push(Equation { wire: *wire, expr })?;
    }
    Ok(equations)
}

/// Registers by their outputs, with wire 0 as their clock.
pub(crate) fn registers_of(
    alloc: Global,
    stored: &[(usize, Cell)],
) -> Result<List<Register>, Memory> {
    let mut registers = List::new(alloc);
    for (q, cell) in stored {
        let next = expr_of(alloc, *cell)?;
        registers.push(Register {
            q: *q,
            next,
            clock: 0,
        })?;
    }
    Ok(registers)
}

/// The net of a design.
pub(crate) fn net_of(alloc: Global, design: &Design) -> Result<Net, NewNet> {
    let ports = ports_of(alloc, design)?;
    let mut wires = List::new(alloc);
    for wire in 0..design.wires {
        wires.push(name(alloc, wire)?)?;
    }
    let equations = equations_of(alloc, design.equations)?;
    let registers = registers_of(alloc, design.registers)?;
    Net::new(alloc, ports, wires, equations, registers, design.clock)
}
