use agm_bits::List;

/// What is secret in a net and its graph.
#[derive(Debug, Drop)]
pub struct Secrets {
    /// One for each input bit of the net.
    pub inputs: List<bool>,
    /// One for each register: whether its output is secret.
    pub registers: List<bool>,
    /// One for each node of the graph.
    pub nodes: List<bool>,
    /// One for each port: whether it is shared. A port is shared that is marked secure, or is an output with a secret bit.
    pub ports: List<bool>,
}
