//! Small designs, run against values by hand.

use crate::designs::{Cell, Design, net_of};
use agm_bits::{BitRow, List, Memory};
use agm_net::Net;
use cycle_sim::{Sim, SimFault};
use std::alloc::Global;
use std::test::Fail;

/// A row of these bits.
pub(crate) fn row_of(alloc: Global, bits: &[bool]) -> Result<BitRow, Memory> {
    let mut row = BitRow::new(alloc);
    for bit in bits {
        row.push(*bit)?;
    }
    Ok(row)
}

// A simulator of a design, with these power-up contents.
fn begun(alloc: Global, design: &Design, power_up: &[bool]) -> Result<Sim, Fail> {
    let net = net_of(alloc, design).map_err(|_| Fail::from("no net"))?;
    let row = row_of(alloc, power_up)?;
    if row.len() != net.registers.len() {
        return Err(Fail::from("no power-up contents"));
    }
    Sim::new(alloc, &net, &row).map_err(|_| Fail::from("no simulator"))
}

fn step(sim: &mut Sim, inputs: &[bool]) -> Result<(), Fail> {
    if inputs.len() != sim.inputs() {
        return Err(Fail::from("no row"));
    }
    sim.step(inputs);
    Ok(())
}

fn redo(sim: &mut Sim, inputs: &[bool]) -> Result<(), Fail> {
    if inputs.len() != sim.inputs() {
        return Err(Fail::from("no row"));
    }
    sim.redo(inputs);
    Ok(())
}

fn value(sim: &Sim, wire: usize) -> bool {
    wire < sim.wires() && sim.value(wire)
}

// An enabled register, one that is fed by it, and an output straight from an input.
const ENABLED: Design<'static> = Design {
    wires: 6,
    inputs: 3,
    outputs: &[],
    clock: Some(0),
    equations: &[(5, Cell::Wire(2))],
    registers: &[(3, Cell::Mux(1, 3, 2)), (4, Cell::Wire(3))],
};

// Rows of enable and data, and the wires 3, 4 and 5 in the cycle.
const ENABLED_RUN: &[([bool; 2], [bool; 3])] = &[
    ([true, true], [false, true, true]),
    ([false, false], [true, false, false]),
    ([true, false], [true, true, false]),
    ([false, true], [false, true, true]),
];

#[test]
fn registers_are_enabled_and_fed(rt: HostRuntime) -> Result<(), Fail> {
    let mut sim = begun(rt.alloc(), &ENABLED, &[false, true])?;
    for (inputs, values) in ENABLED_RUN {
        step(&mut sim, inputs)?;
        assert_eq!(rt; value(&sim, 3), values[0]);
        assert_eq!(rt; value(&sim, 4), values[1]);
        assert_eq!(rt; value(&sim, 5), values[2]);
    }
    Ok(())
}

#[test]
fn a_cycle_is_run_again(rt: HostRuntime) -> Result<(), Fail> {
    let mut sim = begun(rt.alloc(), &ENABLED, &[false, true])?;
    step(&mut sim, &[true, false])?;
    redo(&mut sim, &[true, true])?;
    assert!(rt; value(&sim, 5) && !value(&sim, 3) && value(&sim, 4));
    step(&mut sim, &[false, false])?;
    assert!(rt; !value(&sim, 5) && value(&sim, 3) && !value(&sim, 4));
    Ok(())
}

// The wires of the loop that is told; none where there is a simulator.
fn loop_of(alloc: Global, net: &Net, power_up: &BitRow) -> List<usize> {
    if power_up.len() != net.registers.len() {
        return List::new(alloc);
    }
    let begun = Sim::new(alloc, net, power_up);
    match begun {
        Err(SimFault::Loop { wires }) => wires,
        Err(SimFault::Memory) => List::new(alloc),
        Ok(_sim) => List::new(alloc),
    }
}

// A wire that reads itself.
const LOOPED: Design<'static> = Design {
    wires: 2,
    inputs: 1,
    outputs: &[],
    clock: Some(0),
    equations: &[(1, Cell::Or(1, 0))],
    registers: &[],
};

#[test]
fn a_loop_is_told(rt: HostRuntime) -> Result<(), Fail> {
    let net = net_of(rt.alloc(), &LOOPED).map_err(|_| Fail::from("no net"))?;
    let wires = loop_of(rt.alloc(), &net, &BitRow::new(rt.alloc()));
    assert_eq!(rt; wires.as_slice(), [1].as_slice());
    Ok(())
}

// An accumulator: inputs are the wires 1 to 8, registers 9 to 16, each from bit 0 on; for bit k of the sum, wires 17 + 5k to 21 + 5k
// are what is propagated, what is generated, the sum, what is propagated of the carry, and the next carry.
fn accumulator_lines(alloc: Global) -> Result<Vec<(usize, Cell)>, Memory> {
    let mut lines = Vec::new(alloc);
    for k in 0..8 {
        let first = 17 + 5 * k;
        // No carry comes into bit 0: the clock's bit is 0.
        let carry = if k == 0 { 0 } else { first - 1 };
        lines.push((first, Cell::Xor(9 + k, 1 + k)))?;
        lines.push((first + 1, Cell::And(9 + k, 1 + k)))?;
        lines.push((first + 2, Cell::Xor(first, carry)))?;
        lines.push((first + 3, Cell::And(first, carry)))?;
        lines.push((first + 4, Cell::Or(first + 1, first + 3)))?;
    }
    Ok(lines)
}

fn accumulator_registers(alloc: Global) -> Result<Vec<(usize, Cell)>, Memory> {
    let mut registers = Vec::new(alloc);
    for k in 0..8 {
        registers.push((9 + k, Cell::Wire(19 + 5 * k)))?;
    }
    Ok(registers)
}

fn bits_of(number: u8) -> [bool; 8] {
    [
        number & 1 != 0,
        number & 2 != 0,
        number & 4 != 0,
        number & 8 != 0,
        number & 16 != 0,
        number & 32 != 0,
        number & 64 != 0,
        number & 128 != 0,
    ]
}

// What is added, and the sum.
const SUMS: &[(u8, u8)] = &[(200, 200), (100, 44), (255, 43), (1, 44), (212, 0)];

#[test]
fn an_accumulator_adds(rt: HostRuntime) -> Result<(), Fail> {
    let lines = accumulator_lines(rt.alloc())?;
    let registers = accumulator_registers(rt.alloc())?;
    let design = Design {
        wires: 57,
        inputs: 9,
        outputs: &[],
        clock: Some(0),
        equations: lines.as_slice(),
        registers: registers.as_slice(),
    };
    let mut sim = begun(rt.alloc(), &design, &[false; 8])?;
    for (more, sum) in SUMS {
        step(&mut sim, &bits_of(*more))?;
        for (k, bit) in bits_of(*sum).iter().enumerate() {
            assert_eq!(rt; value(&sim, 19 + 5 * k), *bit);
        }
    }
    Ok(())
}
