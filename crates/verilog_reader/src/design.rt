use agm_bits::{List, Name};
use agm_net::{Range, Way};

/// What a text of structural Verilog spells, in the order of the text. Names are without the `\` of an escaped identifier.
#[derive(Debug, Drop)]
pub struct Design {
    pub modules: List<Module>,
}

/// A module. An ANSI port stands as its name among the ports and as a declaration before all other items.
#[derive(Debug, Drop)]
pub struct Module {
    pub name: Name,
    pub attributes: List<Attribute>,
    /// The listed ports.
    pub ports: List<Name>,
    pub items: List<Item>,
}

/// A declaration, an assign or an instance, with the attributes before it.
#[derive(Debug, Drop)]
pub enum Item {
    /// Ports, where there is a way, and else wires.
    Declare {
        attributes: List<Attribute>,
        way: Option<Way>,
        range: Option<Range>,
        names: List<Name>,
    },
    Assign {
        attributes: List<Attribute>,
        left: Form,
        right: Form,
    },
    Instance {
        attributes: List<Attribute>,
        cell: Name,
        name: Name,
        pins: List<Connection>,
    },
}

/// An attribute: a name, and a value where it has one.
#[derive(Debug, Drop)]
pub struct Attribute {
    pub name: Name,
    pub value: Option<Value>,
}

/// The value of an attribute.
#[derive(Debug, Drop)]
pub enum Value {
    /// A string: the bytes between its quotes as they stand.
    Text(Name),
    Number(u128),
    /// A sized constant, from the most significant bit on.
    Bits(List<bool>),
}

/// What an instance has at one pin; nothing for an empty connection.
#[derive(Debug, Drop)]
pub struct Connection {
    pub pin: Name,
    pub form: Option<Form>,
}

/// A form over names and constants.
#[derive(Debug, Drop)]
pub enum Form {
    /// `x`
    Whole(Name),
    /// `x[3]`
    Bit(Name, u32),
    /// `x[3:0]`
    Part(Name, u32, u32),
    /// A sized constant, from the most significant bit on.
    Constant(List<bool>),
    /// `{a, b}`
    Join(List<Form>),
    /// `{3{a}}`
    Repeat(u32, Box<Form>),
}

/// Why no design was read.
#[derive(Clone, Copy, Debug, PartialEq, Eq)]
pub enum DesignFault {
    /// The bytes spell no design. The place is that of the first wrong token, or the length of the bytes where none is wrong.
    Syntax { at: usize },
    /// Want of memory.
    Memory,
}
