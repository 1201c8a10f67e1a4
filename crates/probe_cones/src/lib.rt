//! What probes of a net see: the cone of a wire, and an observation.
#![tactic(auto)]

mod cone;
mod joining;
mod laws;
mod observation;
mod origins;
mod probe;
mod run;
mod walk;
mod widths;

pub use cone::cones;
pub use joining::{bit_at, join, random_flags};
pub use laws::{cones_are_steps, shares_are_named};
pub use observation::observe;
pub use probe::{Probe, Probes};
pub use run::{begun, bits_of_wires, run_table};
pub use widths::{Widths, widths_of};
