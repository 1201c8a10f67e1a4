use agm_bits::{List, Name};
use agm_net::{Mark, Range, Way};

/// One bit: a name, or a name with a select, as `x[3]`.
#[derive(Debug, Drop)]
pub struct Bit {
    pub name: Name,
    pub index: Option<u32>,
}

/// What an assign sets a bit to.
#[derive(Debug, Drop)]
pub enum Source {
    Bit(Bit),
    Constant(bool),
}

/// A declaration.
#[derive(Debug, Drop)]
pub enum Declaration {
    Port {
        mark: Mark,
        way: Way,
        range: Option<Range>,
        name: Name,
    },
    Wires(List<Name>),
}

/// An assign, or one of the four cells with its instance's name and the bits at its pins.
#[derive(Debug, Drop)]
pub enum Item {
    Assign { target: Bit, source: Source },
    Not { name: Name, a: Bit, y: Bit },
    Xor { name: Name, a: Bit, b: Bit, y: Bit },
    And { name: Name, a: Bit, b: Bit, y: Bit },
    Register { name: Name, c: Bit, d: Bit, q: Bit },
}

/// What a small text spells: one module.
#[derive(Debug, Drop)]
pub struct Small {
    pub name: Name,
    /// The listed ports.
    pub ports: List<Name>,
    pub declarations: List<Declaration>,
    pub items: List<Item>,
}
