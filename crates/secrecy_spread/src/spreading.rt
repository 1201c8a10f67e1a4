ghost use Rattle.std.specs.Prelude.{◌≡◌, ◌<◌, ℕ, Bool, Some, All, IfOk, IfErr, IsTrue, length, map, slice_get};
ghost use Rattle.agm_net.specs.Loop.{HasNoLoop};
ghost use Rattle.agm_net.specs.View.{plain_of};
ghost use Rattle.logic_graph.specs.GraphOf.{IsGraphOf};
ghost use Rattle.logic_graph.specs.Settled.{bit_of};
ghost use Rattle.secrecy_spread.specs.Wires.{AreWireSecrets, flags_of as spec_flags};
ghost use Rattle.secrecy_spread.specs.Found.{IsFound};
ghost use Rattle.secrecy_spread.specs.SecretsOf.{SecretsOf};
ghost use Rattle.secrecy_spread.specs.Leaks.{NoneLeaks, TellsLeak, TellsPort};
ghost use Rattle.secrecy_spread.specs.Clock.{ClockIsOpen};

use crate::nodes::node_secrets;
use crate::ports::{first_leak, shared_ports};
use crate::wires::secret_wires;
use crate::{Secrets, SpreadFault};
use agm_bits::{List, Memory};
use agm_net::{Mark, Marks, Net, Register};
use logic_graph::{Graph, input_bits};
use std::alloc::Global;

// The flags of some wires.
fn flags_of(alloc: Global, wires: &[usize], secret: &[bool]) -> Result<List<bool>, Memory>
    requires { All (λ w. w < length secret.now) wires.now }
    ensures { IfOk result (λ flags. flags ≡ spec_flags secret.now wires.now) }
{
    let mut flags = List::new(alloc);
    for wire in wires {
        flags.push(secret[*wire])?;
    }
    Ok(flags)
}

// The flags of the outputs of registers.
fn output_flags(
    alloc: Global,
    registers: &[Register],
    secret: &[bool],
) -> Result<List<bool>, Memory>
    requires { All (λ r. r.q < length secret.now) registers.now }
    ensures { IfOk result (λ flags. flags ≡ map (λ r. bit_of secret.now r.q) registers.now) }
{
    let mut flags = List::new(alloc);
    for register in registers {
        flags.push(secret[register.q])?;
    }
    Ok(flags)
}

// The secrets of a net, by its secret wires.
fn secrets_of(
    alloc: Global,
    net: &Net,
    graph: &Graph,
    marks: &[Mark],
    secret: &[bool],
) -> Result<Secrets, Memory>
    requires long { length secret.now ≡ length net.now.wires }
    requires graph_of { IsGraphOf (plain_of net.now) graph.now }
    requires marked { length marks.now ≡ length net.now.ports }
    ensures { IfOk result (IsFound (plain_of net.now) graph.now marks.now secret.now) }
{
    let wires = input_bits(alloc, net)?;
    let inputs = flags_of(alloc, wires.as_slice(), secret)?;
    let registers = output_flags(alloc, net.registers.as_slice(), secret)?;
    let nodes = node_secrets(
        alloc,
        graph.nodes.as_slice(),
        inputs.as_slice(),
        registers.as_slice(),
    )?;
    let ports = shared_ports(alloc, net.ports.as_slice(), marks, secret)?;
    Ok(Secrets {
        inputs,
        registers,
        nodes,
        ports,
    })
}

/// The first output port that is marked public and has a secret bit, if there is one. `marks` has one mark for each port.
///
/// Takes linear time and memory in the size of the net.
///
/// # Errors
///
/// `Memory` where memory runs out.
pub fn leaking_port(alloc: Global, net: &Net, marks: &Marks) -> Result<Option<usize>, Memory>
    requires { length marks.now.kinds ≡ length net.now.ports }
    ensures { IfOk result (TellsPort (plain_of net.now) marks.now.kinds) }
{
    let kinds = marks.kinds.as_slice();
    let secret = secret_wires(alloc, net, kinds)?;
    Ok(first_leak(net.ports.as_slice(), kinds, secret.as_slice()))
}

/// What is secret in a net: that to which equations and registers lead from the bits of input ports that are marked secure.
/// `graph` is the graph of the net, and `marks` has one mark for each port; the clock is not marked secure.
///
/// Takes linear time and memory in the size of the net.
///
/// # Errors
///
/// `Leak` where an output port that is marked public has a secret bit, with the first such port, and `Memory` where memory
/// runs out.
pub fn spread(
    alloc: Global,
    net: &Net,
    graph: &Graph,
    marks: &Marks,
) -> Result<Secrets, SpreadFault>
    requires graph_of { IsGraphOf (plain_of net.now) graph.now }
    requires no_loop { HasNoLoop (plain_of net.now) }
    requires marked { length marks.now.kinds ≡ length net.now.ports }
    requires clock { ClockIsOpen (plain_of net.now) marks.now.kinds }
    ensures ok { IfOk result (SecretsOf (plain_of net.now) graph.now marks.now.kinds) }
    ensures no_leak { IfOk result (λ _. NoneLeaks (plain_of net.now) marks.now.kinds) }
    ensures leak { IfErr result (TellsLeak (plain_of net.now) marks.now.kinds) }
{
    let kinds = marks.kinds.as_slice();
    let secret = secret_wires(alloc, net, kinds)?;
    match first_leak(net.ports.as_slice(), kinds, secret.as_slice()) {
        Some(port) => Err(SpreadFault::Leak { port }),
        None => Ok(secrets_of(alloc, net, graph, kinds, secret.as_slice())?),
    }
}
