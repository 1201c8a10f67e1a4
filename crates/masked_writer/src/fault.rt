use agm_bits::Memory;

/// Why bytes are no report. Each cause is looked for before the next one.
#[derive(Clone, Copy, Debug, PartialEq, Eq)]
pub enum ReportCause {
    /// The bytes are no JSON value in UTF-8.
    Json,
    /// The value is no object of exactly a report's keys with values of their kinds, or a number is none from 0 to 2^32-1.
    Shape,
    /// The version is not 1.
    Version,
    /// The numbers are not those of one masked design: the order is not from 1 to 7, or the random bits, the period or the
    /// streams are not those that order, gadgets, latency and balance give.
    Range,
}

/// Why no report was read.
#[derive(Clone, Copy, Debug, PartialEq, Eq)]
pub enum ReportFault {
    /// The first cause that holds.
    Bad { cause: ReportCause },
    /// Want of memory.
    Memory,
}

impl From<Memory> for ReportFault {
    ghost use Rattle.std.specs.Prelude.{◌≡◌};
    ghost use Rattle.masked_writer.specs.declared.fault.ReportFault.TheVariants.{Memory};

    ghost from_gives = { λ _ fault. fault ≡ Memory };

    fn from(_: Memory) -> Self {
        ReportFault::Memory
    }
}
