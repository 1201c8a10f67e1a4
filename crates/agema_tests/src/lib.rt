//! Tests of the commands, over files and outputs in memory.
#![tactic(auto)]

#[cfg(test)]
mod audits;
#[cfg(test)]
mod command;
#[cfg(test)]
mod complete;
#[cfg(test)]
mod costs;
#[cfg(test)]
mod evaluated;
#[cfg(test)]
mod explained;
#[cfg(test)]
mod faults;
#[cfg(test)]
mod libraries;
#[cfg(test)]
mod limits;
#[cfg(test)]
mod netlists;
#[cfg(test)]
mod networks;
#[cfg(test)]
mod probes;
#[cfg(test)]
mod product;
#[cfg(test)]
mod refusals;
#[cfg(test)]
mod reports;
#[cfg(test)]
mod sims;
#[cfg(test)]
mod two_cells;
#[cfg(test)]
mod written_nets;
