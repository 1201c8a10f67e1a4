use agm_bits::{List, Name};

/// Which way a port's bits go.
#[derive(Clone, Copy, Debug, PartialEq, Eq)]
pub enum Way {
    Input,
    Output,
}

/// The range of a port, as `[msb:lsb]`. Either number may be the greater one.
#[derive(Clone, Copy, Debug, PartialEq, Eq)]
pub struct Range {
    /// The number of the most significant bit.
    pub msb: u32,
    /// The number of the least significant bit.
    pub lsb: u32,
}

/// A port of a net.
#[derive(Debug, Drop)]
pub struct Port {
    pub name: Name,
    pub way: Way,
    pub range: Option<Range>,
    /// The wires of its bits, from the most significant bit to the least.
    pub bits: List<usize>,
}
