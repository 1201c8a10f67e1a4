//! Small nets that are HPC2 networks, and small nets that are none.
#![tactic(auto)]

ghost use Rattle.agm_net.specs.Network.{Hpc2};
ghost use Rattle.network_examples.specs.Examples.{apart, added};

/// A net that hands each share on is a network of order 1.
pub fn shares_apart_are_a_network()
    ensures { Hpc2 apart 1 }
{}

/// A net that adds two shares is none.
pub fn added_shares_are_no_network()
    ensures { Hpc2 added 1 → ⊥ }
{}
