//! Nets as designs, and the text of a net's design.
#![tactic(auto)]

mod cells;
mod declarations;
mod items;
mod names;
mod sites;
mod text;

pub use cells::{Cell, Next};
pub use sites::Site;
pub use text::net_text;
