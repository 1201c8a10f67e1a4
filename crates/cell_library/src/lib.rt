//! Liberty cell libraries.
#![tactic(auto)]

mod build;
mod cause;
mod cell;
mod flip;
mod library;
mod pin;
mod raw;
mod read;
mod scope;
mod types;

pub use library::Library;
pub use read::{LibraryFault, one_library, read_library};
pub use types::{Bar, Cell, CellCause, Pin, State};
