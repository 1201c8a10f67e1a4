//! The naive mode: each operator is taken as it stands.
#![tactic(auto)]

mod live;
mod naive_graph;
mod rows;
mod two_forms;

pub use naive_graph::naive;
pub use two_forms::{TwoForm, two_form};
