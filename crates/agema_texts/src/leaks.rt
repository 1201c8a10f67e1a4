//! What is secret in a net, and the answer where an output leaks.

ghost use Rattle.std.specs.Prelude.{◌≡◌, OnOk, IfOk, IfErr, length};
ghost use Rattle.agm_net.specs.Loop.{HasNoLoop};
ghost use Rattle.agm_net.specs.View.{plain_of};
ghost use Rattle.logic_graph.specs.GraphOf.{IsGraphOf};
ghost use Rattle.secrecy_spread.specs.Clock.{ClockIsOpen};
ghost use Rattle.secrecy_spread.specs.Leaks.{NoneLeaks};
ghost use Rattle.secrecy_spread.specs.SecretsOf.{SecretsOf};
ghost use Rattle.agema_texts.specs.Original.{EndsBy};
ghost use Rattle.agema_texts.specs.Masks.{port_name};
ghost use Rattle.agema_texts.specs.Marked.{IsLeaking, IsPortNamed};

use agema_answers::{Ended, Refusal};
use agm_bits::{List, Memory, Name};
use agm_net::{Marks, Net};
use logic_graph::Graph;
use secrecy_spread::{Secrets, SpreadFault, spread};
use std::alloc::Global;

// The name of a port.
fn name_of(alloc: Global, net: &Net, port: usize) -> Result<Name, Memory>
    ensures { IfOk result (λ name. name ≡ port_name (plain_of net.now) port) }
{
    match net.ports.as_slice().get(port) {
        Some(port) => Name::from_slice(alloc, port.name.as_slice()),
        None => Ok(List::new(alloc)),
    }
}

// The answer for an output that leaks.
fn leak_ended(alloc: Global, net: &Net, port: usize) -> Ended
    ensures { EndsBy (IsPortNamed (plain_of net.now) port) result }
{
    match name_of(alloc, net, port) {
        Ok(port) => Ended::Refused(Refusal::Leak { port }),
        Err(_) => Ended::Memory,
    }
}

/// What is secret in a net.
///
/// # Errors
///
/// `Refused` where an output that is marked public has a secret bit, and `Memory` where memory runs out.
pub(crate) fn secrets_of(
    alloc: Global,
    net: &Net,
    graph: &Graph,
    marks: &Marks,
) -> Result<Secrets, Ended>
    requires graph_of { IsGraphOf (plain_of net.now) graph.now }
    requires no_loop { HasNoLoop (plain_of net.now) }
    requires marked { length marks.now.kinds ≡ length net.now.ports }
    requires clock { ClockIsOpen (plain_of net.now) marks.now.kinds }
    ensures ok { IfOk result (SecretsOf (plain_of net.now) graph.now marks.now.kinds) }
    ensures no_leak { OnOk result (NoneLeaks (plain_of net.now) marks.now.kinds) }
    ensures err { IfErr result (EndsBy (IsLeaking (plain_of net.now) marks.now.kinds)) }
{
    match spread(alloc, net, graph, marks) {
        Ok(secrets) => Ok(secrets),
        Err(SpreadFault::Leak { port }) => Err(leak_ended(alloc, net, port)),
        Err(SpreadFault::Memory) => Err(Ended::Memory),
    }
}
