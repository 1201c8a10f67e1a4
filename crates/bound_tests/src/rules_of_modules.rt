//! Modules, and the first rule for names that each breaks.

use crate::designs::design_of;
use cell_library::{Library, read_library};
use module_rules::{NameFault, check_modules};
use std::alloc::Global;
use std::test::Fail;
use test_netlists::words::worded;

const LIBRARY: &str = "library (l) { cell (INV) { pin (A) { direction : input; } } }";

/// A rule, a design, and the first rule that it breaks; nothing where it breaks none.
const CASES: [(&str, &str, &str); 27] = [
    (
        "a port as a wire too",
        "module m(a); input a; wire a; endmodule",
        "",
    ),
    (
        "a wire before its port",
        "module m(a); wire [1:0] a; input [1:0] a; endmodule",
        "",
    ),
    (
        "a module twice",
        "module m; endmodule module n; endmodule module m; endmodule",
        "Clash m",
    ),
    (
        "a module and a cell of the library",
        "module INV; endmodule",
        "Clash INV",
    ),
    (
        "a module and a cell that is known",
        "module AGM_X; endmodule",
        "Clash AGM_X",
    ),
    (
        "a port listed twice",
        "module m(a, b, a); input a, b; endmodule",
        "Clash a",
    ),
    (
        "two ways",
        "module m(a); input a; output a; endmodule",
        "Clash a",
    ),
    (
        "one way twice",
        "module m(a); input a; input a; endmodule",
        "Clash a",
    ),
    (
        "two wires",
        "module m; wire a; wire a; endmodule",
        "Clash a",
    ),
    (
        "two wires in one declaration",
        "module m; wire a, b, a; endmodule",
        "Clash a",
    ),
    (
        "another range",
        "module m(a); input [1:0] a; wire [0:1] a; endmodule",
        "Clash a",
    ),
    (
        "another last number alone",
        "module m(a); input [1:0] a; wire [1:1] a; endmodule",
        "Clash a",
    ),
    (
        "a range and none",
        "module m(a); input a; wire [0:0] a; endmodule",
        "Clash a",
    ),
    (
        "the first of two clashes",
        "module m; wire b; wire a; wire a, b; endmodule",
        "Clash a",
    ),
    (
        "an instance twice",
        "module m; INV u (); INV v (); INV u (); endmodule",
        "Clash u",
    ),
    (
        "an instance and a wire",
        "module m; INV w (); wire w; endmodule",
        "Clash w",
    ),
    (
        "an instance and a port",
        "module m(a); input a; INV a (); endmodule",
        "Clash a",
    ),
    (
        "a listed port that is not declared",
        "module m(a); endmodule",
        "UnknownWire a",
    ),
    (
        "a listed port that is a wire alone",
        "module m(a); wire a; endmodule",
        "UnknownWire a",
    ),
    (
        "a declared port that is not listed",
        "module m; input a; endmodule",
        "UnknownWire a",
    ),
    (
        "listed before declared",
        "module m(b); input a; endmodule",
        "UnknownWire b",
    ),
    (
        "a clash before an unknown port",
        "module m(a); wire b; wire b; endmodule",
        "Clash b",
    ),
    (
        "a name before a listed port",
        "module INV(a, a); endmodule",
        "Clash INV",
    ),
    (
        "a listed port before a declared name",
        "module m(a, a); wire b; wire b; endmodule",
        "Clash a",
    ),
    (
        "a declared name before an instance",
        "module m; INV u (); INV u (); wire b; wire b; endmodule",
        "Clash b",
    ),
    (
        "the first module's fault",
        "module m(a); endmodule module m; endmodule",
        "UnknownWire a",
    ),
    (
        "an escaped name",
        "module m; wire \\a ; wire a; endmodule",
        "Clash a",
    ),
];

// What checking a design tells.
fn told(alloc: Global, library: &Library, design: &str) -> Result<String, Fail> {
    let design = design_of(alloc, design)?;
    let text = match check_modules(alloc, library, &design)? {
        Some(NameFault::Clash(name)) => worded(alloc, "Clash", name.as_slice())?,
        Some(NameFault::UnknownWire(name)) => worded(alloc, "UnknownWire", name.as_slice())?,
        None => String::new(alloc),
    };
    Ok(text)
}

// Fails at the first design of which something else is told.
fn check_all(alloc: Global, library: &str, cases: &[(&str, &str, &str)]) -> Result<(), Fail> {
    let library = read_library(alloc, library.as_bytes())?;
    for (rule, design, wanted) in cases {
        if told(alloc, &library, design)?.as_str() != *wanted {
            return Err(Fail::from(*rule));
        }
    }
    Ok(())
}

#[test]
fn the_first_fault_is_told(rt: HostRuntime) -> Result<(), Fail> {
    check_all(rt.alloc(), LIBRARY, &CASES)
}
