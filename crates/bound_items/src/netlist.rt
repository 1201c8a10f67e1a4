ghost use Rattle.std.specs.Prelude.{◌≡◌};

use crate::Pin;
use agm_bits::{List, Name};
use name_table::Names;
use std::alloc::Global;
use wire_drivers::{Flop, Line};

/// What a walk has come to: wires with different names, equations, registers, and the first pin that counts as a wire.
#[derive(Drop)]
pub struct Netlist {
    pub alloc: Global,
    pub table: Names,
    pub wires: List<Name>,
    pub lines: List<Line>,
    pub flops: List<Flop>,
    pub pin: Option<Pin>,
    ghost tied: { table ≡ wires },
}
