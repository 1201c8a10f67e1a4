use agm_bits::List;

/// What the name of a masked net's port says of its bits.
#[derive(Clone, Copy, Debug, PartialEq, Eq)]
pub enum Role {
    /// Share bits of this share index.
    Share(u32),
    /// Random bits, fresh in each cycle.
    Random,
    Clock,
    Public,
}

/// What the designer says of a port.
#[derive(Clone, Copy, Debug, PartialEq, Eq)]
pub enum Mark {
    Unmarked,
    Secure,
    Public,
    Clock,
}

/// The marks of a net's ports.
#[derive(Debug, Drop)]
pub struct Marks {
    /// One for each port, in port order.
    pub kinds: List<Mark>,
}
