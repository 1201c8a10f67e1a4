//! Pipelined masked nets: paths filled up with registers, so that several streams are in flight.
#![tactic(auto)]

mod chains;
mod entering;
mod initial_ports;
mod input_ports;
mod lasts;
mod laws;
mod layouts;
mod leaving;
mod masking;
mod names;
mod nodes;
mod outputs;
mod pipeline;
mod ports;
mod registers;
mod reports;
mod values;

pub use chains::{Chain, Layout};
pub use entering::{Entrance, enter};
pub use lasts::last_levels;
pub use laws::{
    pipelined_is_same, pipelines_are_right, plans_are_layouts, toggle_is_driven, traces_are_runs,
};
pub use layouts::layout_of;
pub use masking::pipelined;
pub use names::{apart_ports_fit, headers_are_apart, headers_are_made, ports_keep_values};
pub use nodes::make_nodes;
pub use outputs::lead_out;
pub use pipeline::make_pipeline;
pub use ports::{ports_in, public_values, shared_values};
pub use registers::{close_registers, hold_registers};
pub use reports::report_of;
pub use values::Value;
