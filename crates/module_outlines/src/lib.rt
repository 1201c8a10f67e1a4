//! The declared names of a module in the order of a walk, with the places and names of their bits.
#![tactic(auto)]

mod bits;
mod outline;
mod outlined;
mod wide;

pub use bits::inner_bits;
pub use outline::Outline;
pub use outlined::outline_of;
pub use wide::Wide;
