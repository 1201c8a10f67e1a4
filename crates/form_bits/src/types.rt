use agm_bits::List;
use agm_net::Range;
use name_table::Names;

/// A bit of a form.
#[derive(Clone, Copy, Debug, PartialEq, Eq)]
pub enum Bit {
    Constant(bool),
    /// A wire, by its number.
    Wire(usize),
}

/// Where the bits of a declared name stand: from the most significant on.
#[derive(Clone, Copy, Debug, PartialEq, Eq)]
pub struct Spot {
    /// How many bits of the module stand before them.
    pub first: usize,
    pub range: Option<Range>,
}

/// The declared names of a module, each with its spot at the same place.
#[derive(Debug, Drop)]
pub struct Scope {
    pub names: Names,
    pub spots: List<Spot>,
}
