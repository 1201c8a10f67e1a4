//! Cells that instances may name.

use agm_bits::{Memory, Name};
use cell_faces::{cells_of, find_cell, known_cells};
use std::alloc::Global;
use std::test::Fail;

/// A name, and how many pins its cell has, where there is one.
const CELLS: [(&str, Option<usize>); 9] = [
    ("AGM_NOT", Some(2)),
    ("AGM_AND2", Some(3)),
    ("AGM_XOR2", Some(3)),
    ("AGM_OR2", Some(3)),
    ("AGM_MUX2", Some(4)),
    ("AGM_DFF", Some(3)),
    ("AGM_DFFE", Some(4)),
    ("AGM_", None),
    ("INV", None),
];

// How many pins the known cell of a name has.
fn pins(alloc: Global, name: &str) -> Result<Option<usize>, Memory> {
    let known = known_cells(alloc)?;
    let cells = cells_of(alloc, known.as_slice(), &[])?;
    let name = Name::from_slice(alloc, name.as_bytes())?;
    match find_cell(&cells, known.as_slice(), &[], &name) {
        Some(found) => Ok(Some(found.face.names.len())),
        None => Ok(None),
    }
}

// Fails at the first name whose cell has another number of pins.
fn find_all(alloc: Global, cases: &[(&str, Option<usize>)]) -> Result<(), Fail> {
    for (name, wanted) in cases {
        if pins(alloc, name)? != *wanted {
            return Err(Fail::from(*name));
        }
    }
    Ok(())
}

#[test]
fn known_cells_are_found(rt: HostRuntime) -> Result<(), Fail> {
    find_all(rt.alloc(), &CELLS)
}
