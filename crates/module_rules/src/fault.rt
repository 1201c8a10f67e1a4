use agm_bits::Name;

/// Which rule for names a design breaks.
#[derive(Debug, Drop)]
pub enum NameFault {
    /// A name of a module, port, wire or instance is taken.
    Clash(Name),
    /// A listed port is not declared with a way, or a name that is not listed is.
    UnknownWire(Name),
}
