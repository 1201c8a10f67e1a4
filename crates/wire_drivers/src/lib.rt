//! Wires with what drives and reads them: the first that is wrong, and the net of those that are driven.
#![tactic(auto)]

mod count;
mod keep;
mod types;
mod wrong;

pub use keep::kept_net;
pub use types::{Flop, Line, Wrong};
pub use wrong::first_wrong;
