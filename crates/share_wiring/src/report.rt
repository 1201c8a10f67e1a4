use agm_bits::{List, Name};

/// How products of secrets are found.
#[derive(Clone, Copy, Debug, PartialEq, Eq)]
pub enum Mode {
    /// Each operator is taken as it stands.
    Naive,
    /// An AND-inverter graph.
    Aig,
    /// Decision diagrams.
    Bdd,
}

/// How latency is balanced.
#[derive(Clone, Copy, Debug, PartialEq, Eq)]
pub enum Balance {
    /// Paths are filled up with registers, so that several streams are in flight.
    Pipe,
    /// The original's registers are enabled once in a period.
    Gate,
}

/// What a masked design's user needs to know. Times are in clock cycles.
#[derive(Debug, Drop)]
pub struct Report {
    /// Any this many probes tell nothing; each secret has one share more.
    pub order: u32,
    pub mode: Mode,
    pub balance: Balance,
    pub gadgets: usize,
    /// Fresh random bits in each cycle.
    pub random: usize,
    pub latency: usize,
    pub period: usize,
    pub streams: usize,
    pub public_registers: usize,
    pub secret_registers: usize,
    /// The original's names of the shared ports, in port order.
    pub ports: List<Name>,
}
