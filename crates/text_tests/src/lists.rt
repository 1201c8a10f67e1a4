//! Lists, rows of bits, and tables of names.

use agm_bits::{BitRow, List, Memory, Name};
use name_table::Names;
use std::alloc::Global;
use std::test::Fail;

// A list that each of the calls that add to it has made, with its second item set to 13.
fn made_list(alloc: Global, first: u8, more: &[u8]) -> Result<List<u8>, Memory> {
    let mut list = List::new(alloc);
    list.push(first)?;
    list.extend(more)?;
    if let Some(item) = list.as_mut_slice().get_mut(1) {
        *item = 13;
    }
    Ok(list)
}

// Whether the list holds these items, by each call that tells what it holds.
fn holds(list: List<u8>, items: &[u8]) -> bool {
    let is_told = list.len() == items.len() && list.is_empty() == items.is_empty();
    is_told && list.as_slice() == items && list.into_vec().as_slice() == items
}

#[test]
fn lists_hold_what_they_are_given(rt: HostRuntime) -> Result<(), Fail> {
    let alloc = rt.alloc();
    assert!(rt; holds(List::new(alloc), &[]));
    assert!(rt; holds(made_list(alloc, 3, &[5, 8])?, &[3, 13, 8]));
    assert!(rt; holds(Name::from_slice(alloc, b"clk")?, b"clk"));
    assert!(rt; holds(List::from_vec(vec![in alloc; 7u8, 2]?), &[7, 2]));
    Ok(())
}

fn made_row(alloc: Global, bits: &[bool]) -> Result<BitRow, Memory> {
    let mut row = BitRow::new(alloc);
    for bit in bits {
        row.push(*bit)?;
    }
    Ok(row)
}

// Sets a bit of a row that has it.
fn change(row: &mut BitRow, number: usize, bit: bool) {
    if number < row.len() {
        row.set(number, bit);
    }
}

fn has_bits(row: &BitRow, bits: &[bool]) -> bool {
    if row.len() != bits.len() || row.is_empty() != bits.is_empty() {
        return false;
    }
    for number in 0..row.len() {
        if Some(row.get(number)) != bits.get(number).copied() {
            return false;
        }
    }
    true
}

#[test]
fn rows_hold_what_they_are_given(rt: HostRuntime) -> Result<(), Fail> {
    let mut row = made_row(rt.alloc(), &[true, false, true])?;
    assert!(rt; has_bits(&row, &[true, false, true]));
    change(&mut row, 1, true);
    change(&mut row, 2, false);
    assert!(rt; has_bits(&row, &[true, true, false]));
    assert!(rt; has_bits(&BitRow::new(rt.alloc()), &[]));
    Ok(())
}

/// Names that are added in a row, each with its number, and whether it is new.
const ADDED: [(&str, usize, bool); 6] = [
    ("a", 0, true),
    ("bc", 1, true),
    ("a", 0, false),
    ("", 2, true),
    ("b", 3, true),
    ("bc", 1, false),
];

// Adds the names of rows, and fails at the first that gets another place.
fn add_all(names: &mut Names, rows: &[(&str, usize, bool)]) -> Result<(), Fail> {
    for (name, number, is_new) in rows {
        let place = names.add(name.as_bytes())?;
        if place.number != *number || place.is_new != *is_new {
            return Err(Fail::from(*name));
        }
    }
    Ok(())
}

#[test]
fn names_have_numbers(rt: HostRuntime) -> Result<(), Fail> {
    let mut names = Names::new(rt.alloc());
    add_all(&mut names, &ADDED)?;
    assert!(rt; names.len() == 4);
    assert!(rt; names.find(b"bc".as_slice()) == Some(1));
    assert!(rt; names.find(b"c".as_slice()).is_none());
    Ok(())
}
