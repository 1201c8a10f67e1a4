//! What a simulation prints.
#![tactic(auto)]

mod lines;
mod rows;
mod text;

pub use lines::digit_of;
pub use text::sim_text;
