//! Rows of bits as text, and the other way round.

ghost use Rattle.std.specs.Prelude.{◌≡◌, ◌++◌, ◌<◌, ◌+◌, ◌-◌, ℕ, All, IfOk, OnOk, drop, length, map, reverse};
ghost use Rattle.std.specs.List.{flat_map};
ghost use Rattle.probe_text.specs.Text as spec;
ghost use Rattle.sim_text.specs.Text.{digit};

use agm_bits::{BitRow, List, Memory, Name, Tape};
use sim_text::digit_of;
use std::alloc::Global;

/// Appends the bits of a row from the first.
pub(crate) fn push_bits(text: &mut Name, row: &BitRow) -> Result<(), Memory>
    ensures { OnOk result (text.new ≡ text.old ++ map digit row.now) }
{
    for k in 0..row.len() {
        text.push(digit_of(row.get(k)))?;
    }
    Ok(())
}

/// Appends the bits of a row from the first, or `-` where it has none.
pub(crate) fn push_row(text: &mut Name, row: &BitRow) -> Result<(), Memory>
    ensures { OnOk result (text.new ≡ text.old ++ spec.row_text row.now) }
{
    if row.is_empty() {
        text.push(b'-')
    } else {
        push_bits(text, row)
    }
}

// A row's bits from the last to the first.
fn mirrored_row(alloc: Global, row: &BitRow) -> Result<BitRow, Memory>
    ensures { IfOk result (λ turned. turned ≡ reverse row.now) }
{
    let mut turned = BitRow::new(alloc);
    let width = row.len();
    for k in 0..width {
        turned.push(row.get(width - 1 - k))?;
    }
    Ok(turned)
}

/// The tape whose rows have the same bits from the last to the first. Random bits are printed and drawn from the least significant bit
/// of their port, and run from the most significant.
///
/// # Errors
///
/// `Memory` where memory runs out.
pub fn mirrored(alloc: Global, tape: &Tape) -> Result<Tape, Memory>
    ensures rows { IfOk result (λ turned. turned.rows ≡ map reverse tape.now.rows) }
    ensures width { IfOk result (λ turned. turned.width ≡ tape.now.width) }
{
    let mut rows = List::new(alloc);
    for row in tape.rows.as_slice() {
        rows.push(mirrored_row(alloc, row)?)?;
    }
    Ok(Tape {
        width: tape.width,
        rows,
    })
}
