//! The tokens of Liberty texts.
#![tactic(auto)]

mod bytes;
mod cut;
mod first;
mod gap;
mod token;
mod value;

pub use cut::{cut_is_tokens, one_list, whole_is_cut};
pub use first::{front, is_at_end, place};
pub use token::Token;
pub use value::unbroken;
