//! The wiring of shares, and what a masked net must do.
#![tactic(auto)]

mod bits;
mod builder;
mod finish;
mod gate;
mod laws;
mod masked;
mod renumbered;
mod report;
mod sharing;
mod worked;
mod wrong;

pub use builder::Builder;
pub use gate::{Gate, Source, Wire};
pub use laws::{is_driven, start_is_network};
pub use masked::Masked;
pub use renumbered::renumbered_is_same;
pub use report::{Balance, Mode, Report};
pub use sharing::Sharing;
pub use worked::{
    masked_toggle_is_a_net, masked_toggle_is_driven, masked_toggle_is_same, toggle_is_a_net,
    toggle_is_reported, toggle_is_secret, toggle_runs,
};
pub use wrong::{inverted_is_not_same, masked_through_is_same, not_all_are_same};
