ghost use Rattle.std.specs.Prelude.{◌≡◌};

use agm_bits::{Memory, Name};
use cell_library::Bar;

/// Why a design binds to no net: the first rule that it breaks.
#[derive(Debug, Drop)]
pub enum BindFault {
    /// The cell is no module, no cell of the library and none that is known without one.
    UnknownCell {
        instance: Name,
        cell: Name,
    },
    /// What is instantiated has no such pin.
    UnknownPin {
        instance: Name,
        pin: Name,
    },
    /// A name is not declared, or a select is out of range, as it is written.
    UnknownWire {
        name: Name,
    },
    /// A wire has no driver and a reader, or two drivers or more.
    Driven {
        wire: Name,
        drivers: usize,
    },
    /// Two sides differ in width. 2^64 - 1 stands for as many bits or more.
    Width {
        left: usize,
        right: usize,
    },
    /// There is not one candidate for the top module.
    Top {
        candidates: usize,
    },
    /// A chain of instances returns to a module.
    Recursive {
        module: Name,
    },
    /// The cell of the library cannot be used.
    BarredCell {
        instance: Name,
        cell: Name,
        cause: Bar,
    },
    /// A name is taken.
    Clash {
        name: Name,
    },
    /// Want of memory.
    Memory,
}

impl From<Memory> for BindFault {
    ghost use Rattle.bound_items.specs.declared.fault.BindFault.TheVariants.{Memory as WantOfMemory};

    ghost from_gives = { λ _ e. e ≡ WantOfMemory };

    fn from(_: Memory) -> Self {
        BindFault::Memory
    }
}
