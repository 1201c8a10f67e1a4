//! What an audit of a netlist prints.

ghost use Rattle.std.specs.Prelude.{◌≡◌, ◌≤◌, IfOk, IfErr, length, string_bytes};
ghost use Rattle.agm_net.specs.View.{plain_of};
ghost use Rattle.hpc2_audit.specs.Audited.{IsAudited};
ghost use Rattle.agema_texts.specs.Auditing as spec;
ghost use Rattle.agema_texts.specs.Original.{EndsBy, length_limit, wire_name};
ghost use Rattle.agema_texts.specs.Masks.{GivesNet};

use crate::read::{bound_net, loop_ended, name_of, spelled};
use agema_answers::{Ended, Refusal};
use agm_net::Net;
use cell_library::Library;
use hpc2_audit::{AuditFault, Audited, audit};
use std::alloc::{AllocError, Global};

// The random bits that so many gadgets take in a cycle.
fn random_of(order: u32, gadgets: usize) -> u128
    requires { order ≤ 7 }
    ensures { result ≡ spec.random_of order gadgets }
{
    let order = order as u128;
    gadgets as u128 * order * (order + 1) / 2
}

// The line of an HPC2 network.
#[tactic(auto, unfolding(crate::specs::Auditing::audit_line))]
fn audit_line(alloc: Global, order: u32, gadgets: usize) -> Result<String, AllocError>
    requires { order ≤ 7 }
    ensures { IfOk result (λ s. string_bytes s ≡ spec.audit_line order gadgets) }
{
    let random = random_of(order, gadgets);
    format!(in alloc; "hpc2 order {order} gadgets {gadgets} random {random}\n")
}

// The same, where memory may be wanted.
fn line_or_memory(alloc: Global, order: u32, gadgets: usize) -> Result<String, Ended>
    requires { order ≤ 7 }
    ensures ok { IfOk result (λ s. string_bytes s ≡ spec.audit_line order gadgets) }
    ensures err { IfErr result (λ ended. ended ≡ Ended.Memory) }
{
    match audit_line(alloc, order, gadgets) {
        Ok(line) => Ok(line),
        Err(_) => Err(Ended::Memory),
    }
}

/// The net that bytes give without a library.
pub(crate) fn given_net(alloc: Global, bytes: &[u8]) -> Result<Net, Ended>
    ensures ok { IfOk result (λ net. GivesNet bytes.now (plain_of net)) }
    ensures err { IfErr result (EndsBy (spec.IsUngiven bytes.now)) }
{
    let library = Library::empty(alloc);
    let design = spelled(alloc, bytes)?;
    bound_net(alloc, &library, &design)
}

// The answer for a wire that breaks a rule.
fn broken_ended(alloc: Global, net: &Net, wire: usize) -> Ended
    ensures { EndsBy (spec.IsWireNamed (plain_of net.now) wire) result }
{
    match name_of(alloc, net, wire) {
        Ok(wire) => Ended::Refused(Refusal::NotHpc2 { wire }),
        Err(_) => Ended::Memory,
    }
}

/// What is told of an HPC2 network.
pub(crate) fn network_of(alloc: Global, net: &Net, order: u32) -> Result<Audited, Ended>
    requires { order ≤ 7 }
    ensures ok { IfOk result (IsAudited (plain_of net.now) order) }
    ensures err { IfErr result (EndsBy (spec.IsNoNetwork (plain_of net.now) order)) }
{
    match audit(alloc, net, order) {
        Ok(audited) => Ok(audited),
        Err(AuditFault::Loop { wires }) => Err(loop_ended(alloc, net, wires.as_slice())),
        Err(AuditFault::NotHpc2 { wire }) => Err(broken_ended(alloc, net, wire)),
        Err(AuditFault::Memory) => Err(Ended::Memory),
    }
}

/// The line of the HPC2 network of an order that a netlist's bytes give.
///
/// # Errors
///
/// `Refused` where the bytes give no net without a loop, or a wire of it breaks a rule of HPC2 networks, and `Memory` where memory runs
/// out.
pub fn audited(alloc: Global, bytes: &[u8], order: u32) -> Result<String, Ended>
    requires order { order ≤ 7 }
    requires short { length bytes.now ≤ length_limit }
    ensures ok { IfOk result (λ s. spec.Audits bytes.now order (string_bytes s)) }
    ensures err { IfErr result (EndsBy (spec.IsUnaudited bytes.now order)) }
{
    let net = given_net(alloc, bytes)?;
    let network = network_of(alloc, &net, order)?;
    line_or_memory(alloc, order, network.gadgets)
}
