//! What is printed of pairs.

ghost use Rattle.std.specs.Prelude.{◌≡◌, ◌++◌, IfOk, OnOk};
ghost use Rattle.sim_text.specs.Text.{digit, step_head};
ghost use Rattle.side_by_side.specs.Text as spec;

use crate::Pair;
use agm_bits::{BitRow, Memory, Name};
use agm_net::{Net, Port};
use std::alloc::Global;

// `stream s step k`.
fn push_head(alloc: Global, text: &mut Name, stream: usize, step: usize) -> Result<(), Memory>
    ensures { OnOk result (text.new ≡ text.old ++ step_head stream step) }
{
    let head = format!(in alloc; "stream {stream} step {step}")?;
    text.extend(head.as_bytes())
}

fn digit_of(bit: bool) -> u8
    ensures { result ≡ digit bit }
{
    if bit { b'1' } else { b'0' }
}

// The bits of a row.
fn push_row(text: &mut Name, row: &BitRow) -> Result<(), Memory>
    ensures { OnOk result (text.new ≡ text.old ++ spec.bits_text row.now) }
{
    for k in 0..row.len() {
        text.push(digit_of(row.get(k)))?;
    }
    Ok(())
}

// Rows, each behind a comma.
fn push_listed(text: &mut Name, rows: &[BitRow]) -> Result<(), Memory>
    ensures { OnOk result (text.new ≡ text.old ++ spec.listed rows.now) }
{
    for row in rows {
        text.extend(b",")?;
        push_row(text, row)?;
    }
    Ok(())
}

// Rows with commas between them.
fn push_joined(text: &mut Name, rows: &[BitRow]) -> Result<(), Memory>
    ensures { OnOk result (text.new ≡ text.old ++ spec.joined rows.now) }
{
    match rows {
        [] => Ok(()),
        [first, rest @ ..] => {
            push_row(text, first)?;
            push_listed(text, rest)
        }
    }
}

// The name of a port.
fn push_name(text: &mut Name, ports: &[Port], number: usize) -> Result<(), Memory>
    ensures { OnOk result (text.new ≡ text.old ++ spec.port_name ports.now number) }
{
    match ports.get(number) {
        Some(port) => text.extend(port.name.as_slice()),
        None => Ok(()),
    }
}

// `name=original:recombined`.
fn push_values(text: &mut Name, ports: &[Port], pair: &Pair) -> Result<(), Memory>
    ensures { OnOk result (text.new ≡ text.old ++ spec.values_text ports.now pair.now) }
{
    push_name(text, ports, pair.port)?;
    text.extend(b"=")?;
    push_row(text, &pair.plain)?;
    text.extend(b":")?;
    push_row(text, &pair.masked)
}

// The line of a pair.
fn push_pair(alloc: Global, text: &mut Name, ports: &[Port], pair: &Pair) -> Result<(), Memory>
    ensures { OnOk result (text.new ≡ text.old ++ spec.pair_line ports.now pair.now) }
{
    push_head(alloc, text, pair.stream, pair.step)?;
    text.extend(b" ")?;
    push_values(text, ports, pair)?;
    text.extend(b" shares ")?;
    push_joined(text, pair.shares.as_slice())?;
    text.extend(b"\n")
}

/// The lines of pairs of a net's ports: `stream s step k name=original:recombined shares share,share` for each, with the most
/// significant bit of each value first.
///
/// # Errors
///
/// `Memory` where memory runs out.
pub fn columns_text(alloc: Global, net: &Net, pairs: &[Pair]) -> Result<Name, Memory>
    ensures { IfOk result (λ text. text ≡ spec.pairs_text net.now.ports pairs.now) }
{
    let mut text = Name::new(alloc);
    for pair in pairs {
        push_pair(alloc, &mut text, net.ports.as_slice(), pair)?;
    }
    Ok(text)
}
