//! Tests of tapes for masked nets, and of runs on them.
#![tactic(auto)]

#[cfg(test)]
mod beside;
#[cfg(test)]
mod shared;
