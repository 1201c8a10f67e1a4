use agm_bits::Memory;

/// Why a text is no list of probes of a net. Each cause is looked for where the one before does not hold.
#[derive(Clone, Copy, Debug, PartialEq, Eq)]
pub enum ProbeCause {
    /// The bytes are no JSON value in UTF-8.
    Json,
    /// The value is no list of probes: another key or kind, or a number that is no whole number.
    Shape,
    /// The net has no wire of the probe's name.
    Wire,
    /// The probe's cycle is not below 2^20.
    Cycle,
    /// The share index is above the order, or stands in the list before.
    Index,
    /// Probes and indices are together more than the order.
    Count,
}

/// Why no probes were read.
#[derive(Clone, Copy, Debug, PartialEq, Eq)]
pub enum ProbeFault {
    /// The first cause that holds: probe by probe, `Wire` before `Cycle`, then index by index, then `Count`. `index` is the place in its
    /// list for `Wire`, `Cycle` and `Index`, and 0 for the others.
    Bad { cause: ProbeCause, index: usize },
    /// Want of memory.
    Memory,
}

impl From<Memory> for ProbeFault {
    ghost use Rattle.std.specs.Prelude.{◌≡◌};
    ghost use Rattle.probe_lists.specs.declared.fault.ProbeFault.TheVariants.{Memory};

    ghost from_gives = { λ _ fault. fault ≡ Memory };

    fn from(_: Memory) -> Self {
        ProbeFault::Memory
    }
}
