ghost use Rattle.std.specs.Prelude.{◌≡◌};
ghost use Rattle.liberty_statements.specs.declared.stop.Stop.TheVariants as stops;

use agm_bits::Memory;
use std::alloc::{AllocError, AllocFailed};

/// Why nothing was read: want of memory, or a token that goes on with no such text. The number says
/// how many bytes are left from that token on.
#[derive(Clone, Copy, Debug, PartialEq, Eq)]
pub enum Stop {
    Memory,
    Wrong(usize),
}

impl From<Memory> for Stop {
    ghost from_gives = { λ _ e. e ≡ stops.Memory };

    fn from(_: Memory) -> Self {
        Stop::Memory
    }
}

impl From<AllocError> for Stop {
    ghost from_gives = { λ _ e. e ≡ stops.Memory };

    fn from(_: AllocError) -> Self {
        Stop::Memory
    }
}

impl<T: Drop> From<AllocFailed<T>> for Stop {
    ghost from_gives = { λ _ e. e ≡ stops.Memory };

    fn from(_: AllocFailed<T>) -> Self {
        Stop::Memory
    }
}
