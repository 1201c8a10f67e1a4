//! The commands of `agema`.
#![tactic(auto)]

mod audit;
mod both;
mod cones;
mod files;
mod inputs;
mod mask;
mod program;
mod report;
mod seed;
mod sim;
mod words;

pub use program::run;
