//! The cells that instances may name: those that are known without a library, and a library's, with their pins.
#![tactic(auto)]

mod face;
mod find;
mod known;
mod table;

pub use face::cells_of;
pub use find::{Found, find_cell};
pub use known::known_cells;
pub use table::Cells;
