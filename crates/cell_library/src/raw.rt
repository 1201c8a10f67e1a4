use agm_bits::{List, Name};
use agm_net::Way;
use cell_function::Function;

/// What a `pin` group says.
#[derive(Drop)]
pub(crate) struct PinBody {
    pub(crate) direction: Option<Name>,
    pub(crate) function: Option<Name>,
    pub(crate) is_three_state: bool,
}

/// What an `ff` group says.
#[derive(Drop)]
pub(crate) struct FlipBody {
    pub(crate) clocked_on: Option<Name>,
    pub(crate) next_state: Option<Name>,
    pub(crate) is_async: bool,
    pub(crate) has_second_clock: bool,
}

/// What a function text says.
#[derive(Drop)]
pub(crate) enum Said {
    /// It is longer than 1,024 bytes or spells no function.
    Nothing,
    Function(Function),
}

/// A pin with its function read.
#[derive(Drop)]
pub(crate) struct RawPin {
    pub(crate) name: Name,
    pub(crate) way: Option<Way>,
    pub(crate) is_three_state: bool,
    pub(crate) function: Option<Said>,
}

/// A flip-flop with its next state read.
#[derive(Drop)]
pub(crate) struct RawFlip {
    pub(crate) names: List<Name>,
    pub(crate) clocked_on: Option<Name>,
    pub(crate) next: Option<Said>,
    pub(crate) is_async: bool,
    pub(crate) has_second_clock: bool,
}

/// The groups of a cell that are not understood.
#[derive(Clone, Copy)]
pub(crate) struct Kinds {
    pub(crate) has_bus: bool,
    pub(crate) has_latch: bool,
    pub(crate) has_table: bool,
    pub(crate) has_bank: bool,
}

/// What a cell's group says.
#[derive(Drop)]
pub(crate) struct RawCell {
    pub(crate) kinds: Kinds,
    pub(crate) flips: List<RawFlip>,
    pub(crate) pins: List<RawPin>,
}
