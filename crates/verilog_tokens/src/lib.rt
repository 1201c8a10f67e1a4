//! The tokens of structural Verilog, and what may stand between them.
#![tactic(auto)]

mod bits;
mod bytes;
mod constant;
mod first;
mod gap;
mod lexeme;
mod row;

pub use bits::{based_bits, decimal_bits};
pub use constant::number;
pub use lexeme::Lexeme;
pub use row::{is_at_end, next, one_list, tokens_are_cut, tokens_of_cut, within_line};
