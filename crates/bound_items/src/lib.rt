//! What assigns and instances of a design give, in the order in which a walk over the design comes to them.
#![tactic(auto)]

mod add;
mod assign;
mod cell;
mod connect;
mod connected;
mod counts;
mod entered;
mod fault;
mod inside;
mod netlist;
mod outputs;
mod over;
mod pin;
mod reads;
mod register;
mod site;

pub use add::{dotted, empty_netlist};
pub use assign::add_assign;
pub use cell::add_cell;
pub use connected::Wires;
pub use entered::enter;
pub use fault::BindFault;
pub use inside::{Outlined, add_before, add_behind};
pub use netlist::Netlist;
pub use pin::Pin;
