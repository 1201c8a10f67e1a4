//! Levels, and which operand of each gadget is late.
#![tactic(auto)]

mod flags;
mod levels;
mod planning;
mod plans;

pub use planning::plan;
pub use plans::Plan;
