//! The names of the ports of a net that a design binds to.
#![tactic(auto)]

mod laws;

pub use laws::bound_ports_are_named;
