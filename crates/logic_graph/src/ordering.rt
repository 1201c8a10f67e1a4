ghost use Rattle.std.specs.Prelude.{◌≡◌};

use agm_bits::{List, Memory};

/// Why a net has no graph.
#[derive(Debug, Drop)]
pub enum GraphFault {
    /// Each of these wires reads the next, and the last reads the first.
    Loop { wires: List<usize> },
    Memory,
}

impl From<Memory> for GraphFault {
    ghost use Rattle.logic_graph.specs.declared.ordering.GraphFault.TheVariants.{Memory as WantOfMemory};

    ghost from_gives = { λ _ e. e ≡ WantOfMemory };

    fn from(_: Memory) -> Self {
        GraphFault::Memory
    }
}
