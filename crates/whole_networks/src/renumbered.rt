ghost use Rattle.whole_networks.specs.Kept.{RenumberedIsNet, RenumberedIsNetwork, RenumberedHasGadgets, RenumberedIsMasked, RenumberedIsSecure};

use crate::masked_networks_are_secure;

/// A law: a net is one whatever the order of its wires.
pub fn renumbered_is_net()
    ensures { RenumberedIsNet }
{}

/// A law: an HPC2 network is one whatever the order of its wires.
pub fn renumbered_is_network()
    ensures { RenumberedIsNetwork }
{}

/// A law: a network has as many gadgets whatever the order of its wires.
pub fn renumbered_has_gadgets()
    ensures { RenumberedHasGadgets }
{}

/// A law: a net with the ports of a masked net is one whatever the order of its wires.
pub fn renumbered_is_masked()
    ensures { RenumberedIsMasked }
{}

/// A law: where a net with the ports of a masked net is an HPC2 network of its order, probes isolate and tell nothing of the
/// secrets in each net that is the same up to the numbers of its wires.
pub fn renumbered_is_secure()
    ensures { RenumberedIsSecure }
{
    masked_networks_are_secure();
}
