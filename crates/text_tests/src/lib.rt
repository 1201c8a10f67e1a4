//! Tests of the crates that hold, read and write texts, and of nets.
#![tactic(auto)]

#[cfg(test)]
mod cell_libraries;
#[cfg(test)]
mod draws;
#[cfg(test)]
mod fitting;
#[cfg(test)]
mod functions;
#[cfg(test)]
mod liberty_tokens;
#[cfg(test)]
mod lists;
#[cfg(test)]
mod nets;
#[cfg(test)]
mod roles;
#[cfg(test)]
mod shelves;
#[cfg(test)]
mod small_texts;
#[cfg(test)]
mod stimuli;
#[cfg(test)]
mod verilog_designs;
