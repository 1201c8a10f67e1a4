//! What is printed of probes.
#![tactic(auto)]

mod cones;
mod rows;
mod twins;

pub use cones::{cones_text, push_allowed};
pub use rows::mirrored;
pub use twins::twin_text;
