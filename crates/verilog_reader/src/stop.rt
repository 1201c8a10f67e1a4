ghost use Rattle.std.specs.Prelude.{◌≡◌};
ghost use Rattle.verilog_reader.specs.declared.stop.Stop.TheVariants as stops;

use agm_bits::Memory;
use std::alloc::{AllocError, AllocFailed};

/// Why nothing was read: want of memory, or a wrong token, from which on so many bytes are left.
#[derive(Clone, Copy, Debug, PartialEq, Eq)]
pub(crate) enum Stop {
    Memory,
    Wrong(usize),
}

impl From<Memory> for Stop {
    ghost from_gives = { λ _ e. e ≡ stops.Memory };

    fn from(_: Memory) -> Self {
        Stop::Memory
    }
}

impl From<AllocError> for Stop {
    ghost from_gives = { λ _ e. e ≡ stops.Memory };

    fn from(_: AllocError) -> Self {
        Stop::Memory
    }
}

impl<T: Drop> From<AllocFailed<T>> for Stop {
    ghost from_gives = { λ _ e. e ≡ stops.Memory };

    fn from(_: AllocFailed<T>) -> Self {
        Stop::Memory
    }
}
