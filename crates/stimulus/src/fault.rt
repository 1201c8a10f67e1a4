use agm_bits::Memory;

/// Why a text is no stimulus or no tape of a net. Each cause is looked for in all streams and steps before the next one; those of a tape
/// are `Json`, `Shape`, `Cycles`, `Inputs` and `Bits`, and the stream is 0.
#[derive(Clone, Copy, Debug, PartialEq, Eq)]
pub enum StimulusCause {
    /// The bytes are no JSON value in UTF-8.
    Json,
    /// The value is none of streams: another key or kind.
    Shape,
    /// There is no stream, or more than are allowed.
    Streams,
    /// The stream has no step, or another number of steps than stream 0.
    Steps,
    /// The initial state has not one `0` or `1` for each register.
    Initial,
    /// The keys of the step are not exactly the names of the input ports but the clock's.
    Inputs,
    /// The text of some port has not one `0` or `1` for each of its bits.
    Bits,
    /// A tape has no cycle, or another number of them than is wanted.
    Cycles,
}

/// Why no stimulus or tape was read.
#[derive(Clone, Copy, Debug, PartialEq, Eq)]
pub enum StimulusFault {
    /// The first cause that holds. `stream` is 0 for `Json`, `Shape` and `Streams`, and `step`, which counts cycles in a tape, for all but
    /// `Inputs` and `Bits`.
    Bad {
        cause: StimulusCause,
        stream: usize,
        step: usize,
    },
    /// Want of memory.
    Memory,
}

impl From<Memory> for StimulusFault {
    ghost use Rattle.std.specs.Prelude.{◌≡◌};
    ghost use Rattle.stimulus.specs.declared.fault.StimulusFault.TheVariants.{Memory};

    ghost from_gives = { λ _ fault. fault ≡ Memory };

    fn from(_: Memory) -> Self {
        StimulusFault::Memory
    }
}
