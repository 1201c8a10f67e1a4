use crate::Wide;
use agm_bits::List;
use agm_net::Way;
use form_bits::Scope;

/// The declared names of a module: its listed ports, and then the others in the order of their declarations.
#[derive(Debug, Drop)]
pub struct Outline {
    pub wides: List<Wide>,
    /// All of them, with the places of their bits.
    pub names: Scope,
    /// The listed ports, with the places of their bits.
    pub ports: Scope,
    /// The ways of the listed ports.
    pub ways: List<Way>,
    /// How many bits there are.
    pub width: usize,
}
