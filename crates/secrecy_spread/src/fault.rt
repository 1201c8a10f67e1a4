ghost use Rattle.std.specs.Prelude.{◌≡◌};

use agm_bits::Memory;

/// Why a net can't be masked as it is marked.
#[derive(Clone, Copy, Debug, PartialEq, Eq)]
pub enum SpreadFault {
    /// An output port that is marked public has a secret bit.
    Leak { port: usize },
    Memory,
}

impl From<Memory> for SpreadFault {
    ghost use Rattle.secrecy_spread.specs.declared.fault.SpreadFault.TheVariants.{Memory as WantOfMemory};

    ghost from_gives = { λ _ e. e ≡ WantOfMemory };

    fn from(_: Memory) -> Self {
        SpreadFault::Memory
    }
}
