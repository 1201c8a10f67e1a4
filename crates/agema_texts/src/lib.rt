//! What the commands make of the texts that they read, apart from files.
#![tactic(auto)]

mod auditing;
mod comparing;
mod laws;
mod leaks;
mod line;
mod marks;
mod masked;
mod planned;
mod probing;
mod read;
mod reporting;
mod simulation;
mod size;
mod width;

pub use auditing::audited;
pub use comparing::compared;
pub use laws::{one_audit, one_comparison, one_original, one_probing, one_reading, one_simulation};
pub use masked::{MaskedOriginal, Texts, masked_original, masked_texts};
pub use probing::{Network, probed, read_network};
pub use reporting::reported;
pub use simulation::{clocked_net, simulated};
