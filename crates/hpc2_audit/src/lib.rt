//! The audit: which netlists are HPC2 networks, told by the names and the equations of their wires.
#![tactic(auto)]

mod drivers;
mod forms;
mod gadgets;
mod kinds;
mod labels;
mod numbers;
mod parts;
mod places;
mod readers;
mod reads;
mod recipes;
mod rules;
mod sheet;
mod spelled;
mod verdict;

pub use spelled::{Spelled, one_reading, read_label};
pub use verdict::{AuditFault, Audited, audit};
