//! What probes and listed output shares see of a run.

ghost use Rattle.std.specs.Prelude.{◌≡◌, ◌<◌, ◌++◌, ◌&&◌, ℕ, All, IfOk, OnOk, Some, length, map, not, slice_get};
ghost use Rattle.std.specs.List.{flat_map};
ghost use Rattle.agm_net.specs.Loop.{HasNoLoop};
ghost use Rattle.agm_net.specs.Plain as plain;
ghost use Rattle.agm_net.specs.View.{plain_of};
ghost use Rattle.agm_net.specs.declared.port.Port.{Port};
ghost use Rattle.logic_graph.specs.Settled.{bit_of};
ghost use Rattle.probe_cones.specs.Cone.{cone, observed, output_bits_in};
ghost use Rattle.probe_cones.specs.Inputs.{bit_with};
ghost use Rattle.probe_cones.specs.Observing as spec;
ghost use Rattle.probe_cones.specs.Shares.{is_share};

use crate::cone::cones;
use crate::joining::{bit_at, is_input};
use crate::run::run_table;
use crate::{Probe, Probes};
use agm_bits::{BitRow, List, Memory, Tape};
use agm_net::{Net, Role};
use std::alloc::Global;

// Adds the bits of a cone.
fn add_cone(row: &mut BitRow, bits: &BitRow, cone: &[usize]) -> Result<(), Memory>
    ensures { OnOk result (row.new ≡ row.old ++ map (bit_of bits.now) cone.now) }
{
    for wire in cone {
        row.push(bit_at(bits, *wire))?;
    }
    Ok(())
}

// Adds the bits of some cones in a cycle.
fn add_cones(row: &mut BitRow, bits: &BitRow, cones: &[List<usize>]) -> Result<(), Memory>
    ensures { OnOk result (row.new ≡ row.old ++ spec.seen_in cones.now bits.now) }
{
    for cone in cones {
        add_cone(row, bits, cone.as_slice())?;
    }
    Ok(())
}

// The same in each cycle.
fn add_cycles(row: &mut BitRow, table: &[BitRow], cones: &[List<usize>]) -> Result<(), Memory>
    ensures { OnOk result (row.new ≡ row.old ++ flat_map (spec.seen_in cones.now) table.now) }
{
    for bits in table {
        add_cones(row, bits, cones)?;
    }
    Ok(())
}

// Adds the bits of each probe's cone.
fn add_probes(
    row: &mut BitRow,
    table: &[BitRow],
    cones: &[List<usize>],
    probes: &[Probe],
) -> Result<(), Memory>
    requires as_many { length cones.now ≡ length probes.now }
    requires cycles { All (λ p. p.cycle < length table.now) probes.now }
    ensures { OnOk result (row.new ≡ row.old ++ spec.probed table.now cones.now probes.now) }
{
    for (k, probe) in probes.iter().enumerate() {
        add_cone(row, &table[probe.cycle], cones[k].as_slice())?;
    }
    Ok(())
}

// The wires of probes.
fn wires_of(alloc: Global, probes: &[Probe]) -> Result<List<usize>, Memory>
    ensures { IfOk result (λ wires. wires ≡ map (λ p. p.wire) probes.now) }
{
    let mut wires = List::new(alloc);
    for probe in probes {
        wires.push(probe.wire)?;
    }
    Ok(wires)
}

// Whether a port is an output port with a share index.
fn is_output_of(net: &Net, port: usize, index: usize) -> bool
    requires { port < length net.now.ports }
    ensures { (p : Port) → slice_get net.now.ports port ≡ Some p → result ≡ (not (plain.is_input p) && is_share index p.name) }
{
    if is_input(&net.ports.as_slice()[port]) {
        return false;
    }
    match net.role(port) {
        Role::Share(share) => share as usize == index,
        Role::Clock => false,
        Role::Public => false,
        Role::Random => false,
    }
}

// The bits of the output ports with a share index.
fn output_bits_of(alloc: Global, net: &Net, index: usize) -> Result<List<usize>, Memory>
    ensures { IfOk result (λ bits. bits ≡ output_bits_in index net.now.ports) }
{
    let mut bits = List::new(alloc);
    for (k, port) in net.ports.as_slice().iter().enumerate() {
        if is_output_of(net, k, index) {
            bits.extend(port.bits.as_slice())?;
        }
    }
    Ok(bits)
}

// Adds what probes see in the table of a run.
fn watch_probes(
    alloc: Global,
    row: &mut BitRow,
    net: &Net,
    table: &[BitRow],
    probes: &[Probe],
) -> Result<(), Memory>
    requires no_loop { HasNoLoop (plain_of net.now) }
    requires wires { All (λ p. p.wire < length net.now.wires) probes.now }
    requires cycles { All (λ p. p.cycle < length table.now) probes.now }
    ensures { OnOk result (row.new ≡ row.old ++ flat_map (spec.probe_bits (plain_of net.now) table.now) probes.now) }
{
    let wires = wires_of(alloc, probes)?;
    let cones = cones(alloc, net, wires.as_slice())?;
    add_probes(row, table, cones.as_slice(), probes)
}

// Adds what a listed index sees in the table of a run.
fn watch_index(
    alloc: Global,
    row: &mut BitRow,
    net: &Net,
    table: &[BitRow],
    index: usize,
) -> Result<(), Memory>
    requires { HasNoLoop (plain_of net.now) }
    ensures { OnOk result (row.new ≡ row.old ++ spec.index_bits (plain_of net.now) table.now index) }
{
    let wires = output_bits_of(alloc, net, index)?;
    let cones = cones(alloc, net, wires.as_slice())?;
    add_cycles(row, table, cones.as_slice())
}

// The same of some indices, in their order.
fn watch_indices(
    alloc: Global,
    row: &mut BitRow,
    net: &Net,
    table: &[BitRow],
    indices: &[usize],
) -> Result<(), Memory>
    requires { HasNoLoop (plain_of net.now) }
    ensures { OnOk result (row.new ≡ row.old ++ flat_map (spec.index_bits (plain_of net.now) table.now) indices.now) }
{
    for index in indices {
        watch_index(alloc, row, net, table, *index)?;
    }
    Ok(())
}

/// What probes and listed output shares see of the run of a net with these power-up contents, one bit for each register, and with
/// these bits of the input ports, those of `agm_r` apart from the others: for each probe the bits of its cone in its cycle, and then
/// for each index in list order, in each cycle, those of the cones of all output bits with that share. Bits that a row lacks are 0.
///
/// Takes time in the number of rows and of the net's nodes, and in what is seen.
///
/// # Errors
///
/// `Memory` where memory runs out.
pub fn observe(
    alloc: Global,
    net: &Net,
    power_up: &BitRow,
    inputs: &Tape,
    random: &Tape,
    probes: &Probes,
) -> Result<BitRow, Memory>
    requires no_loop { HasNoLoop (plain_of net.now) }
    requires powered { length power_up.now ≡ length net.now.registers }
    requires as_long { length inputs.now.rows ≡ length random.now.rows }
    requires wires { All (λ p. p.wire < length net.now.wires) probes.now.probes }
    requires cycles { All (λ p. p.cycle < length inputs.now.rows) probes.now.probes }
    ensures { IfOk result (λ row. row ≡ observed (plain_of net.now) probes.now.probes probes.now.indices (length inputs.now.rows)
        (bit_with (plain_of net.now) power_up.now inputs.now.rows random.now.rows)) }
{
    let table = run_table(alloc, net, power_up, inputs, random)?;
    let mut row = BitRow::new(alloc);
    watch_probes(
        alloc,
        &mut row,
        net,
        table.as_slice(),
        probes.probes.as_slice(),
    )?;
    watch_indices(
        alloc,
        &mut row,
        net,
        table.as_slice(),
        probes.indices.as_slice(),
    )?;
    Ok(row)
}
