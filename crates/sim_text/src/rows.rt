//! Rows that go into a simulator and come out of it.

ghost use Rattle.std.specs.Prelude.{◌≡◌, [], IfOk, length};
ghost use Rattle.agm_net.specs.Loop.{HasNoLoop};
ghost use Rattle.agm_net.specs.Plain.{PlainNet};
ghost use Rattle.agm_net.specs.Trace.{Row};
ghost use Rattle.agm_net.specs.View.{plain_of};
ghost use Rattle.cycle_sim.specs.HasRun.{HasRun};
ghost use Rattle.logic_graph.specs.Traces.{HasOneTrace};
ghost use Rattle.sim_text.specs.Steps.{IsLastRow};

use agm_bits::{BitRow, List, Memory};
use agm_net::Net;
use cycle_sim::{Sim, SimFault};
use std::alloc::Global;

// The bits of a row.
pub(crate) fn bits_of(alloc: Global, row: &BitRow) -> Result<List<bool>, Memory>
    ensures { IfOk result (λ bits. bits ≡ row.now) }
{
    let mut bits = List::new(alloc);
    for k in 0..row.len() {
        bits.push(row.get(k))?;
    }
    Ok(bits)
}

// The values of all wires in the last cycle that was run.
pub(crate) fn values_of(alloc: Global, sim: &Sim) -> Result<List<bool>, Memory>
    ensures as_wide { IfOk result (λ values. length values ≡ length sim.now.graph.of_wire) }
    ensures row { IfOk result (λ values. (net : PlainNet) (row : Row) → IsLastRow net sim.now row → values ≡ row) }
{
    let mut values = List::new(alloc);
    for wire in 0..sim.wires() {
        values.push(sim.value(wire))?;
    }
    Ok(values)
}

// A simulator of a net without a loop, before its first cycle.
pub(crate) fn begun(alloc: Global, net: &Net, initial: &BitRow) -> Result<Sim, Memory>
    requires no_loop { HasNoLoop (plain_of net.now) }
    requires initial { length initial.now ≡ length net.now.registers }
    ensures has_run { IfOk result (HasRun (plain_of net.now) initial.now []) }
    ensures one_trace { IfOk result (λ _. HasOneTrace (plain_of net.now)) }
{
    match Sim::new(alloc, net, initial) {
        Ok(sim) => Ok(sim),
        Err(SimFault::Memory) => Err(Memory),
        Err(SimFault::Loop { wires: _ }) => unreachable!(),
    }
}
