//! The functions of cells, as Liberty writes them.
#![tactic(auto)]

mod cut;
mod function;
mod part;
mod read;
mod signs;
mod stop;
mod sums;

pub use function::Function;
pub use read::{function_is_spelled, one_function, read_function, spelled_is_function};
