//! Where probes stand.

use agm_bits::List;

/// A probe of a wire, by its number, in one cycle. Cycles are counted from 0.
#[derive(Clone, Copy, Debug, PartialEq, Eq)]
pub struct Probe {
    pub wire: usize,
    pub cycle: usize,
}

/// What an observer asks for: probes, and all output shares of some indices.
#[derive(Debug, Drop)]
pub struct Probes {
    pub probes: List<Probe>,
    pub indices: List<usize>,
}
