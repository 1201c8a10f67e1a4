//! Tests of the crates from a design to a bound net.
#![tactic(auto)]

#[cfg(test)]
mod annotations_of_designs;
#[cfg(test)]
mod bits_of_forms;
#[cfg(test)]
mod bound_designs;
#[cfg(test)]
mod designs;
#[cfg(test)]
mod drivers_of_wires;
#[cfg(test)]
mod faces_of_cells;
#[cfg(test)]
mod forms_of_one_design;
#[cfg(test)]
mod outlines_of_modules;
#[cfg(test)]
mod rules_of_modules;
#[cfg(test)]
mod top_modules;
#[cfg(test)]
mod written_nets;
