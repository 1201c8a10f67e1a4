use agm_bits::List;

/// When each node of a graph is there, and how its gadgets take their operands.
#[derive(Debug, Drop)]
pub struct Plan {
    /// One for each node: whether it is secret.
    pub secret: List<bool>,
    /// One for each node: after how many cycles its value is there. Public nodes have level 0.
    pub levels: List<usize>,
    /// One for each node: for a product of two secret factors, whether its first operand is the late one, which is taken
    /// one cycle before the product is there, and not two. False for all other nodes.
    pub late_first: List<bool>,
    /// The number of gadgets: products of two secret factors.
    pub gadgets: usize,
    /// The greatest level of a secret sink, and 0 where no sink is secret. No other choice of late operands gives a
    /// smaller one.
    pub depth: usize,
}
