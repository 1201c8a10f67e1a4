//! Bits that are drawn from a seed.
#![tactic(auto)]

mod bits;
mod tape;

pub use bits::RandomBits;
pub use tape::draw;
