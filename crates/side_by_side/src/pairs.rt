use agm_bits::{BitRow, List};

/// An output port of the original in a step: its value, and what the masked net has for it.
#[derive(Debug, Drop)]
pub struct Pair {
    /// The stream, the step and the port, counted from 0.
    pub stream: usize,
    pub step: usize,
    pub port: usize,
    /// The value in the original's run, the most significant bit first.
    pub plain: BitRow,
    /// What the shares recombine to.
    pub masked: BitRow,
    /// Shares 0 to the order, or the one value of a public port.
    pub shares: List<BitRow>,
}
