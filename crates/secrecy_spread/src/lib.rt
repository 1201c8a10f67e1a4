//! What is secret in a net, and what the ways to process a net cost.
#![tactic(auto)]

mod fault;
mod nodes;
mod ports;
mod reach;
mod secrets;
mod spreading;
mod wires;

pub use fault::SpreadFault;
pub use secrets::Secrets;
pub use spreading::{leaking_port, spread};
