//! The text of a tape of random bits and its twin.

ghost use Rattle.std.specs.Prelude.{◌≡◌, ◌++◌, ◌∷◌, [], IfOk, OnOk};
ghost use Rattle.std.specs.List.{flat_map};
ghost use Rattle.probe_text.specs.Text as spec;

use crate::cones::push_allowed;
use crate::rows::{push_bits, push_row};
use agm_bits::{BitRow, Memory, Name, Tape};
use std::alloc::Global;

// Each row behind a blank.
fn push_rows(text: &mut Name, rows: &[BitRow]) -> Result<(), Memory>
    ensures { OnOk result (text.new ≡ text.old ++ flat_map (λ row. 32 ∷ spec.row_text row) rows.now) }
{
    for row in rows {
        text.extend(b" ")?;
        push_row(text, row)?;
    }
    Ok(())
}

// A word, each row behind a blank, and a line feed.
fn push_line(text: &mut Name, word: &[u8], rows: &[BitRow]) -> Result<(), Memory>
    ensures { OnOk result (text.new ≡ text.old ++ spec.tape_line word.now rows.now) }
{
    text.extend(word)?;
    push_rows(text, rows)?;
    text.extend(b"\n")
}

// A word, what is seen in a world, and a line feed.
fn push_seen(text: &mut Name, word: &[u8], seen: &BitRow) -> Result<(), Memory>
    ensures { OnOk result (text.new ≡ text.old ++ spec.seen_line word.now seen.now) }
{
    text.extend(word)?;
    text.extend(b" ")?;
    push_bits(text, seen)?;
    text.extend(b"\n")
}

/// The text of a tape of random bits and its twin: the line of the permitted indices, a line for each tape with its rows, and one for
/// what is seen in each of the two worlds.
///
/// # Errors
///
/// `Memory` where memory runs out.
pub fn twin_text(
    alloc: Global,
    indices: &[usize],
    random: &Tape,
    twin: &Tape,
    first: &BitRow,
    second: &BitRow,
) -> Result<Name, Memory>
    ensures { IfOk result (λ text. text ≡ spec.twin_text indices.now random.now.rows twin.now.rows first.now second.now) }
{
    let mut text = Name::new(alloc);
    push_allowed(alloc, &mut text, indices)?;
    push_line(&mut text, b"random:", random.rows.as_slice())?;
    push_line(&mut text, b"twin:", twin.rows.as_slice())?;
    push_seen(&mut text, b"first:", first)?;
    push_seen(&mut text, b"second:", second)?;
    Ok(text)
}
