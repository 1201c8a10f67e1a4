//! The simulator: a net, run cycle by cycle.
#![tactic(auto)]

mod faults;
mod settling;
mod sim;

pub use faults::SimFault;
pub use sim::Sim;
