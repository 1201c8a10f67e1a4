//! What it means that probes isolate, and that they tell nothing of secrets; and the laws of counting behind both.
#![tactic(auto)]

mod agreement;
mod changes;
mod indices;
mod laws;
mod making;
mod pairs;
mod plan;
mod sight;
mod twin_laws;

pub use agreement::{Agreement, agree, agreed_tapes_agree};
pub use indices::allowed;
pub use laws::{
    allowed_are_all, allowed_isolate, bijected_counts, each_tape_once, isolation_blinds,
    joined_and_split, networks_isolate, networks_keep_secrets, permitted_are_few,
    permitted_isolate, split_and_joined, sums_stay, twins_isolate,
};
pub use making::twin;
pub use sight::Sight;
pub use twin_laws::{one_twin, twins_are_seen_alike, twins_exist, twins_lead_back};
