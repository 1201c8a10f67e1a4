//! The answers of a run: their exit statuses and the lines that explain them.
#![tactic(auto)]

mod ended;
mod faults;
mod lines;
mod refusal;

pub use ended::Ended;
pub use faults::bind_ended;
pub use refusal::Refusal;
