//! A table of names, in order of first sight.
#![tactic(auto)]

mod names;

pub use names::{Names, Place};
