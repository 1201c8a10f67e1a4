//! The rules for the names in the modules of a design.
#![tactic(auto)]

mod check;
mod fault;
mod names;
mod scope;

pub use check::check_modules;
pub use fault::NameFault;
