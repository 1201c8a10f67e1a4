//! Tests of the builder and of gadgets.
#![tactic(auto)]

#[cfg(test)]
mod gadgets;
#[cfg(test)]
mod labels;
#[cfg(test)]
mod public_wires;
