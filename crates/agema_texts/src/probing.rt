//! What probes of a netlist see, as it is printed.

ghost use Rattle.std.specs.Prelude.{◌≡◌, ◌≤◌, IfOk, IfErr, length};
ghost use Rattle.agm_net.specs.Loop.{HasNoLoop};
ghost use Rattle.agm_net.specs.View.{plain_of};
ghost use Rattle.hpc2_audit.specs.Audited.{AreLabels, IsAudited};
ghost use Rattle.probe_lists.specs.Fit.{AreFit};
ghost use Rattle.probe_text.specs.Text.{IsConesText};
ghost use Rattle.twin_tape.specs.Allowed.{label_at};
ghost use Rattle.agema_texts.specs.Auditing.{IsUnaudited};
ghost use Rattle.agema_texts.specs.Original.{EndsBy, length_limit};
ghost use Rattle.agema_texts.specs.Probing as spec;

use crate::auditing::{given_net, network_of};
use agema_answers::{Ended, Refusal};
use agm_bits::{List, Name};
use agm_net::{Label, Net};
use probe_cones::Probes;
use probe_lists::{ProbeFault, probes_fit, read_probes};
use probe_text::cones_text;
use std::alloc::Global;

/// An HPC2 network, with the label of each wire.
#[derive(Drop)]
pub struct Network {
    pub net: Net,
    pub order: u32,
    pub labels: List<Label>,
}

/// The HPC2 network of an order that a netlist's bytes give.
///
/// # Errors
///
/// `Refused` where the bytes give no net without a loop, or a wire of it breaks a rule of HPC2 networks, and `Memory` where memory runs
/// out.
pub fn read_network(alloc: Global, bytes: &[u8], order: u32) -> Result<Network, Ended>
    requires order { order ≤ 7 }
    requires short { length bytes.now ≤ length_limit }
    ensures network { IfOk result (λ n. spec.IsNetwork bytes.now order (plain_of n.net)) }
    ensures labels { IfOk result (λ n. AreLabels (plain_of n.net) order n.labels) }
    ensures order { IfOk result (λ n. n.order ≡ order) }
    ensures err { IfErr result (EndsBy (IsUnaudited bytes.now order)) }
{
    let net = given_net(alloc, bytes)?;
    let audited = network_of(alloc, &net, order)?;
    Ok(Network {
        net,
        order,
        labels: audited.labels,
    })
}

// The probes of a text.
fn probes_of(alloc: Global, net: &Net, order: u32, text: &[u8]) -> Result<Probes, Ended>
    requires { length text.now ≤ length_limit }
    ensures ok { IfOk result (spec.HasProbes (plain_of net.now) order text.now) }
    ensures fit { IfOk result (AreFit (length net.now.wires) order) }
    ensures err { IfErr result (EndsBy (spec.IsBadList (plain_of net.now) order text.now)) }
{
    probes_fit();
    match read_probes(alloc, text, net, order) {
        Ok(asked) => Ok(asked),
        Err(ProbeFault::Bad { cause, index }) => Err(Ended::Refused(Refusal::BadProbe {
            cause,
            index,
        })),
        Err(ProbeFault::Memory) => Err(Ended::Memory),
    }
}

// The text of probes, where memory may be wanted.
fn text_or_memory(alloc: Global, network: &Network, asked: &Probes) -> Result<Name, Ended>
    requires no_loop { HasNoLoop (plain_of network.now.net) }
    requires labels { AreLabels (plain_of network.now.net) network.now.order network.now.labels }
    requires fit { AreFit (length network.now.net.wires) network.now.order asked.now }
    ensures ok { IfOk result (IsConesText (plain_of network.now.net) network.now.order (label_at network.now.labels) asked.now) }
    ensures err { IfErr result (λ ended. ended ≡ Ended.Memory) }
{
    match cones_text(
        alloc,
        &network.net,
        network.labels.as_slice(),
        network.order,
        asked,
    ) {
        Ok(text) => Ok(text),
        Err(_) => Err(Ended::Memory),
    }
}

/// The text of the cones of the probes that a text asks for, and of what they permit.
///
/// # Errors
///
/// `Refused` where the text is no list of probes of the network, and `Memory` where memory runs out.
pub fn probed(alloc: Global, network: &Network, text: &[u8]) -> Result<Name, Ended>
    requires no_loop { HasNoLoop (plain_of network.now.net) }
    requires labels { AreLabels (plain_of network.now.net) network.now.order network.now.labels }
    requires short { length text.now ≤ length_limit }
    ensures ok { IfOk result (spec.IsProbed (plain_of network.now.net) network.now.order text.now) }
    ensures err { IfErr result (EndsBy (spec.IsBadList (plain_of network.now.net) network.now.order text.now)) }
{
    let asked = probes_of(alloc, &network.net, network.order, text)?;
    text_or_memory(alloc, network, &asked)
}
