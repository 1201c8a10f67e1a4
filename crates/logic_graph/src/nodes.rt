/// A node of a graph: a constant, a source, or an operator over earlier nodes.
#[derive(Clone, Copy, Debug, PartialEq, Eq)]
pub enum Node {
    Zero,
    One,
    /// An input bit, by its place among the net's input bits.
    Input(usize),
    /// The output of a register, by its place among the net's registers.
    Q(usize),
    Not(usize),
    Xor(usize, usize),
    And(usize, usize),
    Or(usize, usize),
    /// The value of `high` where `select` is 1, else of `low`.
    Mux {
        select: usize,
        low: usize,
        high: usize,
    },
}

/// A node of a graph of inversions, products and exclusive ors.
#[derive(Clone, Copy, Debug, PartialEq, Eq)]
pub enum XanNode {
    Zero,
    One,
    /// An input bit, by its place among the net's input bits.
    Input(usize),
    /// The output of a register, by its place among the net's registers.
    Q(usize),
    Not(usize),
    Xor(usize, usize),
    And(usize, usize),
}
