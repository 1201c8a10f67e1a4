//! An exact reader of structural Verilog, as synthesis tools write it.
#![tactic(auto)]

mod attributes;
mod design;
mod forms;
mod items;
mod modules;
mod names;
mod port;
mod ports;
mod read;
mod stop;
mod terminals;

pub use design::{Attribute, Connection, Design, DesignFault, Form, Item, Module, Value};
pub use read::{one_design, read_design};
