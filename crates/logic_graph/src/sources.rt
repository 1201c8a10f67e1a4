//! The wires of input bits, output bits and registers.

ghost use Rattle.std.specs.Prelude.{◌≡◌, ◌<◌, ◌++◌, ℕ, All, Some, IfOk, OnOk, length, map, slice_index_or};
ghost use Rattle.agm_net.specs.Plain.{ports_but};
ghost use Rattle.logic_graph.specs.Sources as spec;

use agm_bits::{List, Memory};
use agm_net::{Port, Register, Way};
use std::alloc::Global;

// Adds the bits of the ports that go one way.
fn add_bits(bits: &mut List<usize>, ports: &[Port], way: Way) -> Result<(), Memory>
    ensures { OnOk result (bits.new ≡ bits.old ++ spec.bits_of way ports.now) }
{
    for port in ports {
        if port.way == way {
            bits.extend(port.bits.as_slice())?;
        }
    }
    Ok(())
}

// The input bits of a net: those of its input ports without the clock.
pub(crate) fn input_bits_of(
    alloc: Global,
    ports: &[Port],
    clock: Option<usize>,
) -> Result<List<usize>, Memory>
    requires { (c : ℕ) → clock ≡ Some c → c < length ports.now }
    ensures { IfOk result (λ bits. bits ≡ spec.bits_of Way.Input (ports_but clock ports.now)) }
{
    let mut bits = List::new(alloc);
    match clock {
        None => add_bits(&mut bits, ports, Way::Input)?,
        Some(number) => {
            add_bits(&mut bits, &ports[..number], Way::Input)?;
            add_bits(&mut bits, &ports[number + 1..], Way::Input)?;
        }
    }
    Ok(bits)
}

// The output bits of a net.
pub(crate) fn output_bits_of(alloc: Global, ports: &[Port]) -> Result<List<usize>, Memory>
    ensures { IfOk result (λ bits. bits ≡ spec.bits_of Way.Output ports.now) }
{
    let mut bits = List::new(alloc);
    add_bits(&mut bits, ports, Way::Output)?;
    Ok(bits)
}

// The outputs of registers.
pub(crate) fn outputs_of(alloc: Global, registers: &[Register]) -> Result<List<usize>, Memory>
    ensures { IfOk result (λ qs. qs ≡ map (λ r. r.q) registers.now) }
{
    let mut wires = List::new(alloc);
    for register in registers {
        wires.push(register.q)?;
    }
    Ok(wires)
}

// The nodes of some wires.
pub(crate) fn add_nodes(
    sinks: &mut List<usize>,
    of_wire: &[usize],
    wires: &[usize],
) -> Result<(), Memory>
    requires { All (λ w. w < length of_wire.now) wires.now }
    ensures { OnOk result (sinks.new ≡ sinks.old ++ map (λ w. slice_index_or of_wire.now w 0) wires.now) }
{
    for wire in wires {
        sinks.push(of_wire[*wire])?;
    }
    Ok(())
}
