//! The definitions of security at nets that are small enough to compute: what is seen, how often, and where isolation
//! and secrecy hold or fail.
#![tactic(auto)]

mod laws;

pub use laws::{
    a_glitch_tells, a_glitch_tells_the_secret, a_masked_sum_is_blind, a_masked_sum_is_isolated,
    cones_are_seen, masked_counts, one_equation_is_not_blind, one_equation_is_not_isolated,
    one_share_is_isolated, sums_tell_sharings, two_probes_tell_the_secret,
};
