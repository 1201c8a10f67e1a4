//! The text of a design.
#![tactic(auto)]

mod bytes;
mod forms;
mod items;
mod laws;
mod modules;
mod names;

pub use items::item_text;
pub use laws::text_spells;
pub use modules::{design_text, end_text, head_text};
