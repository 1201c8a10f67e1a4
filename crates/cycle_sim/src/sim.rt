ghost use Rattle.std.specs.Prelude.{◌≡◌, ◌≤◌, ℕ, Some, IsTrue, length, slice_get};
ghost use Rattle.logic_graph.specs.declared.nodes.Node.{Node};
ghost use Rattle.cycle_sim.specs.Fits.{sources_fit};

use crate::SimFault;
use crate::settling::{bits_of, fault_of, settle, take_over};
use agm_bits::{BitRow, List, Memory};
use agm_net::Net;
use logic_graph::{Graph, input_bits, order};
use std::alloc::Global;

/// A net that is run cycle by cycle.
#[derive(Debug, Drop)]
pub struct Sim {
    graph: Graph,
    // The number of input bits.
    inputs: usize,
    // What the registers hold in the last cycle run, and their power-up contents before the first.
    registers: List<bool>,
    // The value of each node in the last cycle run.
    values: List<bool>,
    has_run: bool,
    ghost as_many: { length values ≡ length graph.nodes },
    ghost sinks: { length registers ≤ length graph.sinks },
    ghost sources: { (k : ℕ) (n : Node) → slice_get graph.nodes k ≡ Some n → IsTrue (sources_fit inputs (length registers) n) },
}

impl Sim {
    ghost use Rattle.std.specs.Prelude.{◌≡◌, ◌<◌, ◌-◌, ◌++◌, ◌∷◌, [], ℕ, List, true, IfOk, IfErr, length, map, drop};
    ghost use Rattle.agm_net.specs.Plain.{PlainNet};
    ghost use Rattle.agm_net.specs.Trace.{Row, bit_at, IsTrace};
    ghost use Rattle.agm_net.specs.View.{plain_of};
    ghost use Rattle.logic_graph.specs.GraphOf.{IsGraphOf};
    ghost use Rattle.logic_graph.specs.Settled.{bit_of, IsSettled};
    ghost use Rattle.logic_graph.specs.Traces.{Computes, HasOneTrace};
    ghost use Rattle.cycle_sim.specs.HasRun.{HasRun};
    ghost use Rattle.cycle_sim.specs.Told.{TellsLoop};
    ghost use Rattle.cycle_sim.specs.Moved.{HasTakenOver, HasSettled};

    // A simulator of a net by its graph, before the first cycle.
    fn begin(alloc: Global, net: &Net, graph: Graph, power_up: &BitRow) -> Result<Sim, Memory>
        requires many { length power_up.now ≡ length net.now.registers }
        requires graph_of { IsGraphOf (plain_of net.now) graph }
        requires computes { Computes (plain_of net.now) graph }
        ensures { IfOk result (HasRun (plain_of net.now) power_up.now []) }
    {
        let inputs = input_bits(alloc, net)?.len();
        let registers = bits_of(alloc, power_up)?;
        let values = vec![in alloc; false; graph.nodes.len()]?;
        Ok(Sim {
            graph,
            inputs,
            registers,
            values: List::from_vec(values),
            has_run: false,
        })
    }

    /// A simulator of a net, before its first cycle. `power_up` has one bit for each register.
    ///
    /// # Errors
    ///
    /// `Loop` where the net has a loop of equations, and `Memory` where memory runs out.
    pub fn new(alloc: Global, net: &Net, power_up: &BitRow) -> Result<Sim, SimFault>
        requires { length power_up.now ≡ length net.now.registers }
        ensures has_run { IfOk result (HasRun (plain_of net.now) power_up.now []) }
        ensures one_trace { IfOk result (λ _. HasOneTrace (plain_of net.now)) }
        ensures looped { IfErr result (TellsLoop (plain_of net.now)) }
    {
        let ordered = order(alloc, net);
        match ordered {
            Ok(graph) => Ok(Sim::begin(alloc, net, graph, power_up)?),
            Err(fault) => Err(fault_of(fault)),
        }
    }

    // Gives each register the value of its sink.
    fn take_over(&mut self)
        ensures { HasTakenOver self.old self.new }
    {
        let graph = &self.graph;
        let sinks = graph.sinks.as_slice();
        let next = &sinks[sinks.len() - self.registers.len()..];
        take_over(&mut self.registers, next, self.values.as_slice());
    }

    // Gives each node its value for these input bits.
    fn settle(&mut self, inputs: &[bool])
        requires { length inputs.now ≡ self.old.inputs }
        ensures { HasSettled self.old inputs.now self.new }
    {
        let graph = &self.graph;
        let nodes = graph.nodes.as_slice();
        settle(nodes, inputs, self.registers.as_slice(), &mut self.values);
        self.has_run = true;
    }

    /// Runs the next cycle with these input bits: those of input ports in port order, each from the most significant, without
    /// the clock's. In the first cycle registers hold their power-up contents, and in each later one what their next values
    /// were in the cycle before.
    ///
    /// Takes time linear in the number of nodes, and no memory.
    pub fn step(&mut self, inputs: &[bool])
        requires { length inputs.now ≡ self.old.inputs }
        ensures { (net : PlainNet) (power : Row) (tape : List Row) → HasRun net power tape self.old → HasRun net power (tape ++ inputs.now ∷ []) self.new }
    {
        if self.has_run {
            self.take_over();
        }
        self.settle(inputs);
    }

    /// Runs the last cycle again, with other input bits and what the registers held in it.
    ///
    /// Takes time linear in the number of nodes, and no memory.
    pub fn redo(&mut self, inputs: &[bool])
        requires { length inputs.now ≡ self.old.inputs }
        ensures { (net : PlainNet) (power : Row) (before : List Row) (last : Row) → HasRun net power (before ++ last ∷ []) self.old → HasRun net power (before ++ inputs.now ∷ []) self.new }
    {
        self.settle(inputs);
    }

    /// The number of input bits of the net.
    pub fn inputs(&self) -> usize
        ensures { result ≡ self.now.inputs }
    {
        self.inputs
    }

    /// The number of wires of the net.
    pub fn wires(&self) -> usize
        ensures { result ≡ length self.now.graph.of_wire }
    {
        self.graph.of_wire.len()
    }

    /// The value of a wire in the last cycle run; before the first cycle it is false. Takes no memory.
    pub fn value(&self, wire: usize) -> bool
        requires { wire < length self.now.graph.of_wire }
        ensures { (net : PlainNet) (power : Row) (before : List Row) (last : Row) (table : List Row) → HasRun net power (before ++ last ∷ []) self.now → IsTrace net power (before ++ last ∷ []) table → result ≡ bit_at table (length before) wire }
    {
        self.values.as_slice()[self.graph.of_wire.as_slice()[wire]]
    }
}
