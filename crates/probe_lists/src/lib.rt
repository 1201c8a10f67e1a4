//! Lists of probes and share indices, read from JSON.
#![tactic(auto)]

mod checks;
mod fault;
mod laws;
mod probes;
mod reading;
mod texts;

pub use fault::{ProbeCause, ProbeFault};
pub use laws::{one_list, probes_fit};
pub use probe_cones::{Probe, Probes};
pub use reading::read_probes;
