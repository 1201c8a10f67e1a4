//! The texts of a masked design: its report, written and read back.
#![tactic(auto)]

mod fault;
mod laws;
mod members;
mod reading;
mod report;

pub use fault::{ReportCause, ReportFault};
pub use laws::one_report;
pub use reading::read_report;
pub use report::{balance_in, balance_text, mode_in, mode_text, report_text};
