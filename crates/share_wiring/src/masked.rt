use crate::Report;
use agm_net::Net;

/// A masked net with its report.
#[derive(Debug, Drop)]
pub struct Masked {
    pub net: Net,
    pub report: Report,
}
