ghost use Rattle.std.specs.Prelude.{◌≡◌, length, IfOk, slice_index};
ghost use Rattle.std.specs.List.{find, range_with_len};
ghost use Rattle.std.specs.Option.{option_map};
ghost use Rattle.wire_drivers.specs.Wiring as spec;
ghost use Rattle.wire_drivers.specs.View.{wiring};
ghost use Rattle.wire_drivers.specs.Counted.{wrong_at};

use crate::count::{count_drivers, count_readers};
use crate::{Flop, Line, Wrong};
use agm_bits::{Memory, Name};
use agm_net::Port;
use std::alloc::Global;

// Whether the counts of drivers and readers of a wire are wrong.
fn is_wrong(drivers: usize, readers: usize) -> bool
    ensures { result ≡ spec.is_wrong_count drivers readers }
{
    (drivers == 0 && readers > 0) || drivers >= 2
}

// The first wire whose counts are wrong, with its count of drivers.
fn first_wrong_count(drivers: &[usize], readers: &[usize]) -> Option<Wrong>
    requires { length readers.now ≡ length drivers.now }
    ensures { result ≡ option_map (λ wire. record { wire = wire; drivers = slice_index drivers.now wire }) (find (wrong_at drivers.now readers.now) (range_with_len 0 (length drivers.now))) }
{
    for wire in 0..drivers.len() {
        if is_wrong(drivers[wire], readers[wire]) {
            return Some(Wrong {
                wire,
                drivers: drivers[wire],
            });
        }
    }
    None
}

/// The first wire that has no driver and a reader or two drivers or more, with its count of drivers. Wires are the numbers of
/// their names.
///
/// Takes linear time.
///
/// # Errors
///
/// `Memory` where memory runs out.
pub fn first_wrong(
    alloc: Global,
    ports: &[Port],
    wires: &[Name],
    lines: &[Line],
    flops: &[Flop],
) -> Result<Option<Wrong>, Memory>
    ensures { IfOk result (λ o. o ≡ spec.first_wrong (wiring ports.now wires.now lines.now flops.now)) }
{
    let drivers = count_drivers(alloc, ports, wires, lines, flops)?;
    let readers = count_readers(alloc, ports, wires, lines, flops)?;
    Ok(first_wrong_count(drivers.as_slice(), readers.as_slice()))
}
