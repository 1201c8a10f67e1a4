use crate::{Attribute, Item};
use agm_bits::{List, Name};
use agm_net::{Range, Way};

// What an entry in a list of ANSI ports says of its name.
#[derive(Debug, Drop)]
pub struct PortKind {
    pub attributes: List<Attribute>,
    pub way: Way,
    pub range: Option<Range>,
}

// An entry behind the first: one with a kind of its own, or a name alone.
#[derive(Debug, Drop)]
pub struct PortEntry {
    pub kind: Option<PortKind>,
    pub name: Name,
}

// The ports of a module: their names, and the declarations that ANSI ports are.
#[derive(Debug, Drop)]
pub struct Ports {
    pub names: List<Name>,
    pub items: List<Item>,
}
