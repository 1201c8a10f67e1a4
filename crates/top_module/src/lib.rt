//! The top module of a design, and what stands before the declarations of its ports.
#![tactic(auto)]

mod clock;
mod facts;
mod ports;
mod top;

pub use clock::find_clock;
pub use facts::{Kind, MarkSet, PortFacts};
pub use ports::{name_facts, port_facts};
pub use top::{TopFault, find_top};
