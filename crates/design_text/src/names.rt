//! Names, numbers and constants.

ghost use Rattle.std.specs.Prelude.{◌≡◌, ◌++◌, OnOk, map, codes, length};
ghost use Rattle.std.specs.List.{list_all, flat_map};
ghost use Rattle.std.specs.Fmt.{decimal};
ghost use Rattle.small_text.specs.Bytes as kinds;
ghost use Rattle.small_text.specs.Layout as layout;
ghost use Rattle.verilog_tokens.specs.Token.{Constant};
ghost use Rattle.design_text.specs.Parts.{parts_text, token_text, bit_digit};
ghost use Rattle.design_text.specs.Written as spec;

use crate::bytes::{is_key, is_letter, is_word};
use agm_bits::{Memory, Name};
use std::alloc::Global;

// Whether a name goes on as a simple identifier may.
fn are_words(bytes: &[u8]) -> bool
    ensures { result ≡ list_all kinds.is_word bytes.now }
{
    bytes.iter().all(|b| is_word(*b))
}

// Whether a name is a simple identifier.
fn is_simple_name(name: &[u8]) -> bool
    ensures { result ≡ layout.is_simple_name name.now }
{
    match name {
        [first, rest @ ..] => is_letter(*first) && (are_words(rest) && !is_key(name)),
        [] => false,
    }
}

/// A name, escaped if need be.
pub(crate) fn name(text: &mut Name, name: &[u8]) -> Result<(), Memory>
    ensures { OnOk result (text.new ≡ text.old ++ parts_text (spec.name_parts name.now)) }
{
    if is_simple_name(name) {
        text.extend(name)
    } else {
        text.extend(b"\\")?;
        text.extend(name)?;
        text.extend(b" ")
    }
}

/// A number.
pub(crate) fn number(alloc: Global, text: &mut Name, number: u32) -> Result<(), Memory>
    ensures { OnOk result (text.new ≡ text.old ++ decimal number) }
{
    let digits = format!(in alloc; "{number}")?;
    text.extend(digits.as_bytes())
}

// How many bits a constant has, as digits.
fn size(alloc: Global, text: &mut Name, bits: &[bool]) -> Result<(), Memory>
    ensures { OnOk result (text.new ≡ text.old ++ decimal (length bits.now)) }
{
    let size = bits.len();
    let digits = format!(in alloc; "{size}")?;
    text.extend(digits.as_bytes())
}

// Binary digits.
fn digits(text: &mut Name, bits: &[bool]) -> Result<(), Memory>
    ensures { OnOk result (text.new ≡ text.old ++ map bit_digit bits.now) }
{
    for bit in bits {
        text.push(if *bit { b'1' } else { b'0' })?;
    }
    Ok(())
}

/// A constant.
pub(crate) fn constant(alloc: Global, text: &mut Name, bits: &[bool]) -> Result<(), Memory>
    ensures { OnOk result (text.new ≡ text.old ++ token_text (Constant bits.now)) }
{
    size(alloc, text, bits)?;
    text.extend(b"'b")?;
    digits(text, bits)
}

// Names, each behind a comma.
fn more_names(text: &mut Name, names: &[Name]) -> Result<(), Memory>
    ensures { OnOk result (text.new ≡ text.old ++ parts_text (flat_map spec.next_name names.now)) }
{
    for next in names {
        text.extend(b", ")?;
        name(text, next.as_slice())?;
    }
    Ok(())
}

/// Names with commas between them.
pub(crate) fn names(text: &mut Name, names: &[Name]) -> Result<(), Memory>
    ensures { OnOk result (text.new ≡ text.old ++ parts_text (spec.names_parts names.now)) }
{
    match names {
        [first, rest @ ..] => {
            name(text, first.as_slice())?;
            more_names(text, rest)
        }
        [] => Ok(()),
    }
}
