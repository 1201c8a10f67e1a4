ghost use Rattle.std.specs.Prelude.{◌≡◌, ◌≤◌, ◌+◌, ◌-◌, ◌++◌, map, Some, IfOk, OnOk};
ghost use Rattle.std.specs.List.{range_with_len};
ghost use Rattle.agm_net.specs.Plain.{select_name, bit_names, range_numbers};
ghost use Rattle.module_outlines.specs.Outlines as spec;
ghost use Rattle.module_outlines.specs.View.{wide_view};

use crate::Wide;
use agm_bits::{List, Memory, Name};
use agm_net::Range;
use std::alloc::Global;

// A name behind a prefix.
fn whole_text(alloc: Global, prefix: &Name, name: &Name) -> Result<Name, Memory>
    ensures { IfOk result (λ n. n ≡ prefix.now ++ name.now) }
{
    let mut text = Name::from_slice(alloc, prefix.as_slice())?;
    text.extend(name.as_slice())?;
    Ok(text)
}

// A bit of a name with a range, behind a prefix.
fn bit_text(alloc: Global, prefix: &Name, name: &Name, number: u32) -> Result<Name, Memory>
    ensures { IfOk result (λ n. n ≡ prefix.now ++ select_name name.now number) }
{
    let select = format!(in alloc; "[{number}]")?;
    let mut text = whole_text(alloc, prefix, name)?;
    text.extend(select.as_bytes())?;
    Ok(text)
}

// The numbers of a range whose first is the greatest.
fn numbers_down(alloc: Global, msb: u32, lsb: u32) -> Result<List<u32>, Memory>
    requires { lsb ≤ msb }
    ensures { IfOk result (λ ns. ns ≡ map (λ k. msb - k) (range_with_len 0 (msb - lsb + 1))) }
{
    let mut numbers = List::new(alloc);
    for k in 0..(msb - lsb) as usize + 1 {
        numbers.push(msb - k as u32)?;
    }
    Ok(numbers)
}

// The numbers of a range whose first is the least.
fn numbers_up(alloc: Global, msb: u32, lsb: u32) -> Result<List<u32>, Memory>
    requires { msb ≤ lsb }
    ensures { IfOk result (λ ns. ns ≡ range_with_len msb (lsb - msb + 1)) }
{
    let mut numbers = List::new(alloc);
    for k in 0..(lsb - msb) as usize + 1 {
        numbers.push(msb + k as u32)?;
    }
    Ok(numbers)
}

// The numbers of a range in its own direction.
fn numbers_of(alloc: Global, range: Range) -> Result<List<u32>, Memory>
    ensures { IfOk result (λ ns. ns ≡ range_numbers range.msb range.lsb) }
{
    if range.lsb <= range.msb {
        numbers_down(alloc, range.msb, range.lsb)
    } else {
        numbers_up(alloc, range.msb, range.lsb)
    }
}

// Adds bits of a name of these numbers, behind a prefix.
fn push_numbers(
    alloc: Global,
    prefix: &Name,
    name: &Name,
    numbers: &[u32],
    texts: &mut List<Name>,
) -> Result<(), Memory>
    ensures { OnOk result (texts.new ≡ texts.old ++ map (λ t. prefix.now ++ t) (map (select_name name.now) numbers.now)) }
{
    for number in numbers {
        let text = bit_text(alloc, prefix, name, *number)?;
        texts.push(text)?;
    }
    Ok(())
}

// Adds the bits of a name with a range, behind a prefix.
fn push_range(
    alloc: Global,
    prefix: &Name,
    name: &Name,
    range: Range,
    texts: &mut List<Name>,
) -> Result<(), Memory>
    ensures { OnOk result (texts.new ≡ texts.old ++ map (λ t. prefix.now ++ t) (bit_names name.now (Some range))) }
{
    let numbers = numbers_of(alloc, range)?;
    push_numbers(alloc, prefix, name, numbers.as_slice(), texts)
}

// Adds the bits of a declared name, behind a prefix.
fn push_wide(
    alloc: Global,
    prefix: &Name,
    wide: &Wide,
    texts: &mut List<Name>,
) -> Result<(), Memory>
    ensures { OnOk result (texts.new ≡ texts.old ++ map (λ t. prefix.now ++ t) (spec.wide_bits (wide_view wide.now))) }
{
    match wide.range {
        Some(range) => push_range(alloc, prefix, &wide.name, range, texts),
        None => {
            let text = whole_text(alloc, prefix, &wide.name)?;
            texts.push(text)?;
            Ok(())
        }
    }
}

/// The bits of declared names by their names, each behind a prefix.
///
/// # Errors
///
/// `Memory` where memory runs out.
pub fn inner_bits(alloc: Global, prefix: &Name, wides: &[Wide]) -> Result<List<Name>, Memory>
    ensures { IfOk result (λ texts. texts ≡ spec.inner_bits prefix.now (map wide_view wides.now)) }
{
    let mut texts = List::new(alloc);
    for wide in wides {
        push_wide(alloc, prefix, wide, &mut texts)?;
    }
    Ok(texts)
}
