ghost use Rattle.std.specs.Prelude.{◌≡◌};

use agm_bits::{List, Memory};
use logic_graph::GraphFault;

/// Why a net can't be run.
#[derive(Debug, Drop)]
pub enum SimFault {
    /// Each of these wires reads the next, and the last reads the first.
    Loop { wires: List<usize> },
    Memory,
}

impl From<Memory> for SimFault {
    ghost use Rattle.cycle_sim.specs.declared.faults.SimFault.TheVariants.{Memory as WantOfMemory};

    ghost from_gives = { λ _ e. e ≡ WantOfMemory };

    fn from(_: Memory) -> Self {
        SimFault::Memory
    }
}
