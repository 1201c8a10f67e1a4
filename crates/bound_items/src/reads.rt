ghost use Rattle.std.specs.Prelude.{◌≡◌, fold, map, slice_index_or, Some, false, IfOk};
ghost use Rattle.agm_net.specs.Formula.{formula_of};
ghost use Rattle.cell_library.specs.Spelled.{cell_of, pin_of};
ghost use Rattle.wire_drivers.specs.Wiring.{wires_in};
ghost use Rattle.bound_items.specs.Items as spec;
ghost use Rattle.bound_items.specs.Reads.{AreReads, function_pins, output_pins, state_pins, marked, read_flags};

use crate::over::bit_at;
use agm_bits::Memory;
use agm_net::{Expr, Way};
use cell_library::{Cell, Pin};
use form_bits::Bit;
use std::alloc::Global;

// Marks a pin.
fn mark(flags: &mut [bool], k: usize)
    ensures { flags.new ≡ marked flags.old k }
{
    if k < flags.len() {
        flags[k] = true;
    }
}

// Marks the pins that stand in an expression.
fn mark_expr(flags: &mut [bool], expr: &Expr)
    ensures { flags.new ≡ fold marked flags.old (wires_in (formula_of expr.now)) }
{
    match expr {
        Expr::Zero | Expr::One => (),
        Expr::Wire(k) => mark(flags, *k),
        Expr::Not(x) => mark_expr(flags, x),
        Expr::And(x, y) | Expr::Or(x, y) | Expr::Xor(x, y) => {
            mark_expr(flags, x);
            mark_expr(flags, y)
        }
        Expr::Mux { select, low, high } => {
            mark_expr(flags, select);
            mark_expr(flags, low);
            mark_expr(flags, high)
        }
    }
}

// Marks the pins that the function of a pin at a bit reads, where it is an output.
fn mark_function(flags: &mut [bool], bit: Option<Bit>, pin: &Pin)
    ensures { flags.new ≡ fold marked flags.old (function_pins bit (spec.pin_function (Some (pin_of pin.now)))) }
{
    match bit {
        Some(_) => match pin.way {
            Way::Input => (),
            Way::Output => match &pin.function {
                Some(function) => mark_expr(flags, function),
                None => (),
            },
        },
        None => (),
    }
}

// Marks the pins that the functions of connected outputs read.
fn mark_outputs(flags: &mut [bool], bits: &[Option<Bit>], pins: &[Pin])
    ensures { flags.new ≡ fold marked flags.old (output_pins bits.now (map pin_of pins.now)) }
{
    for number in 0..pins.len() {
        mark_function(flags, bit_at(bits, number), &pins[number]);
    }
}

// Marks the pins that the register of a cell reads, where its state has a bit.
fn mark_state(flags: &mut [bool], cell: &Cell, q: Option<Bit>)
    ensures { flags.new ≡ fold marked flags.old (state_pins (cell_of cell.now).state q) }
{
    match &cell.state {
        Some(state) => match q {
            Some(_) => {
                mark_expr(flags, &state.next);
                mark(flags, state.clock)
            }
            None => (),
        },
        None => (),
    }
}

// Marks the pins that a cell at these bits reads.
fn marked_pins(
    alloc: Global,
    cell: &Cell,
    bits: &[Option<Bit>],
    q: Option<Bit>,
) -> Result<Vec<bool>, Memory>
    ensures { IfOk result (λ flags. flags.items ≡ read_flags (cell_of cell.now) bits.now q) }
{
    let mut flags = vec![in alloc; false; cell.pins.len()]?;
    mark_outputs(flags.as_mut_slice(), bits, cell.pins.as_slice());
    mark_state(flags.as_mut_slice(), cell, q);
    Ok(flags)
}

/// A flag for each pin of a cell: whether the cell at these bits reads it.
pub(crate) fn read_pins(
    alloc: Global,
    cell: &Cell,
    bits: &[Option<Bit>],
    q: Option<Bit>,
) -> Result<Vec<bool>, Memory>
    ensures { IfOk result (λ flags. AreReads flags.items (cell_of cell.now) bits.now q) }
{
    let flags = marked_pins(alloc, cell, bits, q)?;
    Ok(flags)
}

/// The flag of a pin.
pub(crate) fn flag_at(flags: &[bool], k: usize) -> bool
    ensures { result ≡ slice_index_or flags.now k false }
{
    if k < flags.len() { flags[k] } else { false }
}

/// Whether pin k is the clock of a cell whose state has a bit.
pub(crate) fn is_clock_of(cell: &Cell, q: Option<Bit>, k: usize) -> bool
    ensures { result ≡ spec.is_clock_of (cell_of cell.now).state q k }
{
    match &cell.state {
        Some(state) => match q {
            Some(_) => state.clock == k,
            None => false,
        },
        None => false,
    }
}
