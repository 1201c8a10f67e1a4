use agm_bits::{List, Name};
use agm_net::{Expr, Way};

/// Why a cell cannot be used: the first of these that holds.
#[derive(Clone, Copy, Debug, PartialEq, Eq)]
pub enum Bar {
    /// A `bus` or `bundle` group.
    Bus,
    /// A `latch` or `latch_bank` group.
    Latch,
    /// A `statetable` group.
    StateTable,
    /// An `ff_bank` group.
    Bank,
    /// More than one `ff` group, or one without two names.
    TwoStates,
    /// A pin is described twice.
    DoublePin,
    /// A pin's direction is neither input nor output.
    Direction,
    /// A pin has `three_state`.
    ThreeState,
    /// The `ff` group has `clear` or `preset`.
    AsyncControl,
    /// `clocked_on` is not the name of an input pin, or `clocked_on_also` is there.
    ClockShape,
    /// An output without `function`, or an `ff` group without `next_state`.
    NoFunction,
    /// A function or next state is longer than 1,024 bytes or not spelled.
    FunctionText,
    /// A function or next state names neither an input pin nor the state.
    UnknownName,
}

/// A pin of a cell. In a function the wire k is pin k, and the wire behind the pins is the state.
#[derive(Debug, Drop)]
pub struct Pin {
    pub name: Name,
    pub way: Way,
    pub function: Option<Expr>,
}

/// The state of a flip-flop. `clock` is the number of an input pin.
#[derive(Debug, Drop)]
pub struct State {
    pub name: Name,
    pub clock: usize,
    pub next: Expr,
}

/// A cell. One that is barred has no pins and no state.
#[derive(Debug, Drop)]
pub struct Cell {
    pub name: Name,
    pub pins: List<Pin>,
    pub state: Option<State>,
    pub barred: Option<Bar>,
}

/// What is wrong with a cell's name.
#[derive(Clone, Copy, Debug, PartialEq, Eq)]
pub enum CellCause {
    /// An earlier cell has it.
    Duplicate,
    /// It begins with `AGM_`.
    Reserved,
}
