//! The run of a net as a table.

ghost use Rattle.std.specs.Prelude.{◌≡◌, ◌++◌, ◌∷◌, [], ℕ, All, IfOk, List, length};
ghost use Rattle.agm_net.specs.Loop.{HasNoLoop};
ghost use Rattle.agm_net.specs.Plain.{PlainNet, input_bits};
ghost use Rattle.agm_net.specs.Run.{Fits, run_of};
ghost use Rattle.agm_net.specs.Trace.{Row};
ghost use Rattle.agm_net.specs.View.{plain_of};
ghost use Rattle.cycle_sim.specs.HasRun.{HasRun};
ghost use Rattle.probe_cones.specs.Inputs.{with_random};
ghost use Rattle.probe_cones.specs.Observing.{wires_in};

use crate::joining::{join_all, random_flags};
use agm_bits::{BitRow, List, Memory, Tape};
use agm_net::Net;
use cycle_sim::{Sim, SimFault};
use std::alloc::Global;

/// A simulator of a net without a loop, before its first cycle.
pub fn begun(alloc: Global, net: &Net, power_up: &BitRow) -> Result<Sim, Memory>
    requires no_loop { HasNoLoop (plain_of net.now) }
    requires powered { length power_up.now ≡ length net.now.registers }
    ensures { IfOk result (HasRun (plain_of net.now) power_up.now []) }
{
    match Sim::new(alloc, net, power_up) {
        Ok(sim) => Ok(sim),
        Err(SimFault::Memory) => Err(Memory),
        Err(SimFault::Loop { wires: _ }) => unreachable!(),
    }
}

/// The bits of all wires in the last cycle that was run.
pub fn bits_of_wires(alloc: Global, sim: &Sim) -> Result<BitRow, Memory>
    ensures { IfOk result (λ bits. (net : PlainNet) (power : Row) (before : List Row) (last : Row) → HasNoLoop net →
        Fits net power (before ++ last ∷ []) → HasRun net power (before ++ last ∷ []) sim.now →
        bits ≡ wires_in net power (before ++ last ∷ []) (length before)) }
{
    let mut bits = BitRow::new(alloc);
    for wire in 0..sim.wires() {
        bits.push(sim.value(wire))?;
    }
    Ok(bits)
}

// The run of a net without a loop: the bits of all wires in each cycle.
fn run(
    alloc: Global,
    net: &Net,
    power_up: &BitRow,
    tape: &[List<bool>],
) -> Result<List<BitRow>, Memory>
    requires no_loop { HasNoLoop (plain_of net.now) }
    requires powered { length power_up.now ≡ length net.now.registers }
    requires as_wide { All (λ row. length row ≡ length (input_bits (plain_of net.now))) tape.now }
    ensures { IfOk result (λ table. table ≡ run_of (plain_of net.now) power_up.now tape.now) }
{
    let mut sim = begun(alloc, net, power_up)?;
    let mut table = List::new(alloc);
    for row in tape {
        sim.step(row.as_slice());
        table.push(bits_of_wires(alloc, &sim)?)?;
    }
    Ok(table)
}

/// The run of a net with these power-up contents, one bit for each register, and with these bits of the input ports, those of
/// `agm_r` apart from the others: for each cycle the bits of all wires. Bits that a row lacks are 0.
///
/// Takes time and memory in the number of rows and of the net's wires.
///
/// # Errors
///
/// `Memory` where memory runs out.
pub fn run_table(
    alloc: Global,
    net: &Net,
    power_up: &BitRow,
    inputs: &Tape,
    random: &Tape,
) -> Result<List<BitRow>, Memory>
    requires no_loop { HasNoLoop (plain_of net.now) }
    requires powered { length power_up.now ≡ length net.now.registers }
    requires as_long { length inputs.now.rows ≡ length random.now.rows }
    ensures { IfOk result (λ table. table ≡ run_of (plain_of net.now) power_up.now (with_random (plain_of net.now) inputs.now.rows random.now.rows)) }
{
    let flags = random_flags(alloc, net)?;
    let tape = join_all(
        alloc,
        flags.as_slice(),
        inputs.rows.as_slice(),
        random.rows.as_slice(),
    )?;
    run(alloc, net, power_up, tape.as_slice())
}
