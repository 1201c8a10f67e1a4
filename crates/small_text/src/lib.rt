//! The small form of Verilog: one module of inverters, exclusive ors, products and registers.
#![tactic(auto)]

mod bytes;
mod print;
mod small;
mod token;
mod write;

pub use small::{Bit, Declaration, Item, Small, Source};
pub use token::Token;
pub use write::write_small;
