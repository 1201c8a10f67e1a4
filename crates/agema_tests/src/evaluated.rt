//! The simulator and a plain evaluator agree on every netlist of the tests that binds, and on what is written for the simple ones.

use crate::command::{NO_FAULTS, run_over};
use agm_bits::{BitRow, Memory};
use agm_net::Net;
use cell_library::{Library, read_library};
use cycle_sim::{Sim, SimFault};
use net_binding::bind;
use std::alloc::Global;
use std::test::Fail;
use test_netlists::evaluator::{Evaluator, Shuffled};
use test_netlists::{bound, refused, runs, simple};
use verilog_reader::read_design;

const CYCLES: usize = 16;

fn row_of(alloc: Global, bits: &[bool]) -> Result<BitRow, Memory> {
    let mut row = BitRow::new(alloc);
    for bit in bits {
        row.push(*bit)?;
    }
    Ok(row)
}

// A simulator of a net, unless it has a loop.
fn begun(alloc: Global, net: &Net, power_up: &[bool]) -> Result<Option<Sim>, Fail> {
    let row = row_of(alloc, power_up)?;
    if row.len() != net.registers.len() {
        return Err(Fail::from("no power-up contents"));
    }
    let begun = Sim::new(alloc, net, &row);
    match begun {
        Ok(sim) => Ok(Some(sim)),
        Err(SimFault::Loop { .. }) => Ok(None),
        Err(SimFault::Memory) => Err(Fail::from("no memory")),
    }
}

fn step(sim: &mut Sim, inputs: &[bool]) -> Result<(), Fail> {
    if inputs.len() != sim.inputs() {
        return Err(Fail::from("another number of inputs"));
    }
    sim.step(inputs);
    Ok(())
}

// Whether both have the same bit at each wire.
fn are_same(sim: &Sim, plain: &Evaluator, net: &Net) -> bool {
    for wire in 0..net.wires.len() {
        if wire >= sim.wires() {
            return false;
        }
        if sim.value(wire) != plain.bit(wire) {
            return false;
        }
    }
    true
}

// How many nets were compared: 1, and 0 where the net has a loop. Fails where both do not agree in some cycle.
fn compare_net(alloc: Global, net: &Net, drawn: &mut Shuffled) -> Result<usize, Fail> {
    let power_up = drawn.bits(alloc, net.registers.len())?;
    let mut plain = Evaluator::new(alloc, net, power_up.as_slice())?;
    let mut sim = match begun(alloc, net, power_up.as_slice())? {
        Some(sim) => sim,
        None => return Ok(0),
    };
    for _ in 0..CYCLES {
        let inputs = drawn.bits(alloc, plain.inputs())?;
        plain.step(net, inputs.as_slice());
        step(&mut sim, inputs.as_slice())?;
        if !are_same(&sim, &plain, net) {
            return Err(Fail::from("both do not agree"));
        }
    }
    Ok(1)
}

// The same of a netlist: 0 where it is not bound.
fn compare(
    alloc: Global,
    library: &Library,
    netlist: &str,
    drawn: &mut Shuffled,
) -> Result<usize, Fail> {
    let Ok(design) = read_design(alloc, netlist.as_bytes()) else {
        return Ok(0);
    };
    let bound = bind(alloc, library, &design);
    match bound {
        Ok(net) => compare_net(alloc, &net, drawn),
        Err(_) => Ok(0),
    }
}

type Triples<'t> = &'t [(&'t str, &'t str, &'t str)];

type Pairs<'t> = &'t [(&'t str, &'t str)];

// How many designs were compared whose netlist stands in the middle.
fn compare_middle(alloc: Global, library: &Library, designs: Triples<'_>) -> Result<usize, Fail> {
    let mut drawn = Shuffled::new(1);
    let mut compared = 0usize;
    for (_, text, _) in designs {
        compared = compared.wrapping_add(compare(alloc, library, text, &mut drawn)?);
    }
    Ok(compared)
}

// The same where it stands first of three.
fn compare_first(alloc: Global, library: &Library, designs: Triples<'_>) -> Result<usize, Fail> {
    let mut drawn = Shuffled::new(2);
    let mut compared = 0usize;
    for (text, _, _) in designs {
        compared = compared.wrapping_add(compare(alloc, library, text, &mut drawn)?);
    }
    Ok(compared)
}

// The same where it stands first of two.
fn compare_front(alloc: Global, library: &Library, designs: Pairs<'_>) -> Result<usize, Fail> {
    let mut drawn = Shuffled::new(3);
    let mut compared = 0usize;
    for (text, _) in designs {
        compared = compared.wrapping_add(compare(alloc, library, text, &mut drawn)?);
    }
    Ok(compared)
}

// The same where it stands behind what it shows.
fn compare_behind(alloc: Global, library: &Library, designs: Pairs<'_>) -> Result<usize, Fail> {
    let mut drawn = Shuffled::new(4);
    let mut compared = 0usize;
    for (_, text) in designs {
        compared = compared.wrapping_add(compare(alloc, library, text, &mut drawn)?);
    }
    Ok(compared)
}

// How many of the netlists were compared that `mask` writes for such designs with this command.
fn compare_written(
    alloc: Global,
    library: &Library,
    line: &str,
    designs: Pairs<'_>,
) -> Result<usize, Fail> {
    let mut drawn = Shuffled::new(5);
    let mut compared = 0usize;
    for (_, text) in designs {
        let found = run_over(alloc, text, line, NO_FAULTS)?;
        let one = compare(alloc, library, found.net.as_str(), &mut drawn)?;
        compared = compared.wrapping_add(one);
    }
    Ok(compared)
}

fn library_of(alloc: Global, cells: &str) -> Result<Library, Fail> {
    read_library(alloc, cells.as_bytes()).map_err(|_| Fail::from("no library"))
}

/// Simple netlists that stand outside of the table.
const SINGLE: [(&str, &str); 4] = [
    ("a product", simple::PRODUCT),
    ("a product with a clock", simple::CLOCKED_PRODUCT),
    ("a square", simple::SQUARE),
    ("two cells", simple::TWO_CELLS),
];

const WRITTEN: [&str; 2] = ["mask - n.v 1 naive pipe o.v", "mask - n.v 2 naive pipe o.v"];

// Of the designs with their nets these many are bound: all of the first table, one that has a marked top, and one with an open pin.
fn compare_bound(alloc: Global) -> Result<(), Fail> {
    let library = library_of(alloc, bound::LIBRARY)?;
    expect(compare_middle(alloc, &library, &bound::NETS)?, 16)?;
    expect(compare_middle(alloc, &library, &bound::WIRES)?, 1)?;
    expect(compare_middle(alloc, &library, &bound::NAMES)?, 0)?;
    expect(compare_middle(alloc, &library, &bound::PINS)?, 1)
}

// Of the others all that run, those whose stimulus or annotation is refused or that are not built, and the simple ones.
fn compare_others(alloc: Global) -> Result<(), Fail> {
    let library = library_of(alloc, refused::CELLS)?;
    expect(compare_first(alloc, &library, &runs::RUNS)?, 6)?;
    expect(compare_first(alloc, &library, &runs::REFUSED)?, 7)?;
    expect(compare_front(alloc, &library, &runs::MASKED)?, 3)?;
    expect(compare_front(alloc, &library, &refused::REFUSED)?, 7)?;
    expect(compare_behind(alloc, &library, &simple::SIMPLE)?, 24)?;
    expect(compare_behind(alloc, &library, &SINGLE)?, 4)
}

// What is written for the simple ones, at orders 1 and 2.
fn compare_masked(alloc: Global) -> Result<(), Fail> {
    let library = library_of(alloc, "library (none) { }")?;
    for line in WRITTEN.iter() {
        expect(compare_written(alloc, &library, line, &simple::SIMPLE)?, 24)?;
        expect(compare_written(alloc, &library, line, &SINGLE)?, 4)?;
    }
    Ok(())
}

// Fails where another number of nets was compared.
fn expect(compared: usize, wanted: usize) -> Result<(), Fail> {
    if compared == wanted {
        Ok(())
    } else {
        Err(Fail::from("another number of nets was compared"))
    }
}

#[test]
fn both_evaluators_agree(rt: HostRuntime) -> Result<(), Fail> {
    compare_bound(rt.alloc())?;
    compare_others(rt.alloc())?;
    compare_masked(rt.alloc())
}
