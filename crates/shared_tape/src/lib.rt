//! What drives a masked net: a stimulus of the original, shared.
#![tactic(auto)]

mod cycles;
mod inputs;
mod laws;
mod secrets;
mod sharer;
mod sharing;
mod states;
mod streams;
mod tape;

pub use inputs::Input;
pub use laws::tapes_drive;
pub use sharer::Sharer;
pub use tape::share_out;
