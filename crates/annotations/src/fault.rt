use agm_bits::Memory;

/// Why a net's annotations are wrong: the first rule that is broken. `port` is a port's number in the net, and `wire` a wire's.
#[derive(Clone, Copy, Debug, PartialEq, Eq)]
pub enum AnnotationFault {
    /// The port's name begins with `agm_`.
    Reserved { port: usize },
    /// A mark of the port has no value or an unknown one, or is `clock` on an output or a port with a range.
    Value { port: usize },
    /// Two marks of the port differ.
    Twice { port: usize },
    /// A mark of the port is `clock`, and an earlier port is the clock.
    SecondClock { port: usize },
    /// No input is marked secure.
    NoSecure,
    /// There is a register, and no clock.
    NoClock,
    /// The wire is the clock of a register and no clock wire, or a clock wire that is used otherwise.
    ClockUse { wire: usize },
    /// Want of memory.
    Memory,
}

impl From<Memory> for AnnotationFault {
    ghost use Rattle.std.specs.Prelude.{◌≡◌};
    ghost use Rattle.annotations.specs.declared.fault.AnnotationFault.TheVariants.{Memory};

    ghost from_gives = { λ _ fault. fault ≡ Memory };

    fn from(_: Memory) -> Self {
        AnnotationFault::Memory
    }
}
