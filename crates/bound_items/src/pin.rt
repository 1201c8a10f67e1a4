use agm_bits::Name;

/// A pin that counts as a wire, with its count of drivers.
#[derive(Debug, Drop)]
pub struct Pin {
    pub name: Name,
    pub drivers: usize,
}
