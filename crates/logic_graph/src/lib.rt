//! The graph of a net: its operators, each behind its operands.
#![tactic(auto)]

mod drawing;
mod graphs;
mod laws;
mod making;
mod nodes;
mod ordering;
mod search;
mod sources;

pub use graphs::{Graph, Xan};
pub use laws::{graphs_tell_bits, nodes_have_values, nodes_settle, traces_have_cycles};
pub use making::{input_bits, order};
pub use nodes::{Node, XanNode};
pub use ordering::GraphFault;
