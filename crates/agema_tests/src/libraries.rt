//! Cell libraries: which are refused, in which order, and that a netlist is masked beside one.

use crate::command::{Faults, NO_FAULTS, left_nothing, run_with};
use std::alloc::Global;
use std::test::Fail;
use test_netlists::simple::PRODUCT;

const COMMAND: &str = "mask l.lib n.v 1 naive pipe o.v";

/// Two cells, one of them barred.
const CELLS: &str =
    "library (x) { cell (INV_X1) { pin (A) { direction : input; } pin (Y) { direction : output; function : \"!A\"; } } cell (LATCH_X1) { latch (IQ, IQN) { } } }";

/// Texts that are no library, or have a cell whose name is wrong. `AGM_` begins the names of the cells that are known without one.
const REFUSED: [(&str, &str); 5] = [
    ("", "status 11 LibrarySyntax at=0\n"),
    ("library (x) {", "status 11 LibrarySyntax at=13\n"),
    (
        "library (x) { cell (AND2_X1) { } cell (OR2_X1) { } cell (AND2_X1) { } cell (AGM_X) { } }",
        "status 13 Cell name=AND2_X1 cause=Duplicate\n",
    ),
    (
        "library (x) { cell (AGM_X) { } cell (AGM_X) { } }",
        "status 13 Cell name=AGM_X cause=Reserved\n",
    ),
    (
        "library (x) { cell (AGM_X) { } ",
        "status 11 LibrarySyntax at=31\n",
    ),
];

/// The shelf's call that fails, where call 0 reads the library and call 1 the netlist, and how the command ends.
const FAULTS: [(Option<usize>, &str); 3] = [
    (Some(0), "status 3 ReadFault file=l.lib\n"),
    (Some(1), "status 3 ReadFault file=n.v\n"),
    (Some(2), "status 4 WriteFault file=o.v\n"),
];

// Fails at the first library that isn't refused so. The netlist is refused too, but later.
fn refuse_all(alloc: Global, libraries: &[(&str, &str)]) -> Result<(), Fail> {
    for (library, end) in libraries {
        let found = run_with(alloc, library, "no netlist", COMMAND, NO_FAULTS)?;
        if !left_nothing(&found, end) {
            return Err(Fail::from(*library));
        }
    }
    Ok(())
}

// Fails at the first fault that isn't told so.
fn tell_all(alloc: Global, cases: &[(Option<usize>, &str)]) -> Result<(), Fail> {
    for (shelf, end) in cases {
        let faults = Faults {
            shelf: *shelf,
            sink: false,
        };
        let found = run_with(alloc, CELLS, PRODUCT, COMMAND, faults)?;
        if !left_nothing(&found, end) {
            return Err(Fail::from(*end));
        }
    }
    Ok(())
}

// Whether a command ends so where the library has both cells.
fn ends(alloc: Global, netlist: &str, line: &str, end: &str) -> Result<bool, Fail> {
    let found = run_with(alloc, CELLS, netlist, line, NO_FAULTS)?;
    Ok(found.end.as_str() == end)
}

#[test]
fn reads_libraries(rt: HostRuntime) -> Result<(), Fail> {
    let alloc = rt.alloc();
    refuse_all(alloc, &REFUSED)?;
    tell_all(alloc, &FAULTS)?;
    assert!(rt; ends(alloc, PRODUCT, COMMAND, "status 0 Done\n")?);
    assert!(rt; ends(alloc, "no netlist", COMMAND, "status 12 NetSyntax at=0\n")?);
    Ok(())
}
