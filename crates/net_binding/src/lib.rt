//! Binding: the net of a design of modules and cells.
#![tactic(auto)]

mod frame;
mod inside;
mod items;
mod parts;
mod ports;
mod steps;
mod top;

pub use bound_items::BindFault;
pub use top::bind;
