//! What tests of several crates share: netlists, parts of nets, words for values, and an evaluator.
#![tactic(auto)]

pub mod bound;
pub mod evaluator;
pub mod parts;
pub mod refused;
pub mod runs;
pub mod simple;
pub mod words;
