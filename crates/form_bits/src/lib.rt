//! Forms over the declared names of a module: which name is unknown, how wide a form is, and its bits.
#![tactic(auto)]

mod bits;
mod select;
mod types;
mod unknown;
mod width;

pub use bits::push_bits;
pub use types::{Bit, Scope, Spot};
pub use unknown::first_unknown;
pub use width::form_width;
