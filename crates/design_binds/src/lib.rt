//! Plain nets as texts: the design of a plain net binds to the net.
#![tactic(auto)]

mod laws;
mod write;

pub use laws::{design_binds, design_is_read};
pub use write::write_net;
