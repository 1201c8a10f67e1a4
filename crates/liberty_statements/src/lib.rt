//! The statements of Liberty texts: groups, complex attributes and simple attributes.
#![tactic(auto)]

mod args;
mod group;
mod laws;
mod stop;
mod terminals;
mod values;

pub use args::{arg_names, skip_args};
pub use group::skip_group;
pub use laws::{args_are_read, args_stand, body_is_read, body_stands};
pub use stop::Stop;
pub use terminals::{begins, ended, start, symbol};
pub use values::{skip_value, value_text};
