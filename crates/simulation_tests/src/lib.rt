//! Tests of graphs of nets, of the simulator, and of what a simulation prints.
#![tactic(auto)]

#[cfg(test)]
mod designs;
#[cfg(test)]
mod fitting;
#[cfg(test)]
mod graphs;
#[cfg(test)]
mod printed_runs;
#[cfg(test)]
mod simulated_nets;
