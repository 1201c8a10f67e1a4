//! Masked nets that are HPC2 networks are secure.
#![tactic(auto)]

ghost use Rattle.whole_networks.specs.Whole.{MaskedNetsAreWhole, MaskedNetworksAreSecure, NamedNetworksAreSecure};

mod renumbered;

pub use renumbered::{
    renumbered_has_gadgets, renumbered_is_masked, renumbered_is_net, renumbered_is_network,
    renumbered_is_secure,
};
use twin_tape::{networks_isolate, networks_keep_secrets};

/// A law: a net with the ports of a masked net is whole at its order.
pub fn masked_nets_are_whole()
    ensures { MaskedNetsAreWhole }
{}

/// A law: in a net with the ports of a masked net that is an HPC2 network of its order, probes isolate, and tell nothing of its secrets.
pub fn masked_networks_are_secure()
    ensures { MaskedNetworksAreSecure }
{
    networks_isolate();
    networks_keep_secrets();
}

/// A law: so it is of what `pipeline_balance::pipelined` answers, whose contract says all that this law wants: probes isolate in the
/// masked net of each original with the names that masking wants, and tell nothing of its secrets.
pub fn named_networks_are_secure()
    ensures { NamedNetworksAreSecure }
{
    masked_networks_are_secure();
}
