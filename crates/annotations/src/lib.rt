//! Annotations: the marks of a net's ports, and whether its clock is used as a clock alone.
#![tactic(auto)]

mod copies;
mod fault;
mod judge;
mod laws;
mod ports;
mod reads;
mod spread;
mod uses;

pub use fault::AnnotationFault;
pub use judge::{annotate, clocks};
pub use laws::clock_is_marked;
