//! The gadget that multiplies two sharings.
#![tactic(auto)]

mod gadget;
mod names;
mod parts;

pub use gadget::multiply;
