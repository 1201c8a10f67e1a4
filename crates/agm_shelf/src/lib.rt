//! The files and the output of a program, as traits, in memory and over the system.
#![tactic(auto)]

mod entry;
mod files;
mod memory;
mod memory_sink;
mod output;
mod shelf;
mod whole;

pub use files::FilesShelf;
pub use memory::MemoryShelf;
pub use memory_sink::MemorySink;
pub use output::StdSink;
pub use shelf::{PutEnd, ReadEnd, Shelf, Sink};
pub use whole::write_whole;
