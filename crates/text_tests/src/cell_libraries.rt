//! Cell libraries: causes that bar cells, functions, and places of wrong tokens.

use agm_net::{Expr, Way};
use cell_library::{Cell, LibraryFault, Pin, State, read_library};
use std::alloc::{AllocError, Global};
use std::test::Fail;
use test_netlists::evaluator::value;
use test_netlists::words::{put_name, worded};

// The row in which wire k has bit k of a number.
fn row_of(bits: usize) -> [bool; 8] {
    [
        bits & 1 != 0,
        bits & 2 != 0,
        bits & 4 != 0,
        bits & 8 != 0,
        bits & 16 != 0,
        bits & 32 != 0,
        bits & 64 != 0,
        bits & 128 != 0,
    ]
}

// The truth table of an expression over so many wires, from the row of zeros on.
fn put_table(text: &mut String, expr: &Expr, wires: u32) -> Result<(), AllocError> {
    for bits in 0..1usize.checked_shl(wires).unwrap_or(0) {
        text.push(if value(expr, &row_of(bits)) { '1' } else { '0' })?;
    }
    Ok(())
}

fn put_pin(text: &mut String, pin: &Pin, wires: u32) -> Result<(), AllocError> {
    text.push(' ')?;
    put_name(text, pin.name.as_slice())?;
    text.push(if let Way::Input = pin.way { '<' } else { '>' })?;
    match &pin.function {
        Some(function) => put_table(text, function, wires),
        None => Ok(()),
    }
}

// Adds a state between brackets: its name, its clock, and the table of its next value.
fn put_state(
    alloc: Global,
    text: &mut String,
    state: &State,
    wires: u32,
) -> Result<(), AllocError> {
    text.push_str(" [")?;
    put_name(text, state.name.as_slice())?;
    let clock = format!(in alloc; " {} ", state.clock)?;
    text.push_str(clock.as_str())?;
    put_table(text, &state.next, wires)?;
    text.push(']')
}

// Adds a line with a cell's name, its cause or its pins with their truth tables, and its state.
fn put_cell(alloc: Global, text: &mut String, cell: &Cell) -> Result<(), AllocError> {
    put_name(text, cell.name.as_slice())?;
    if let Some(bar) = cell.barred {
        let cause = format!(in alloc; " {bar:?}")?;
        text.push_str(cause.as_str())?;
    }
    let states = if cell.state.is_some() { 1 } else { 0 };
    let wires = u32::try_from(cell.pins.len().saturating_add(states)).unwrap_or(0);
    for pin in cell.pins.as_slice() {
        put_pin(text, pin, wires)?;
    }
    if let Some(state) = &cell.state {
        put_state(alloc, text, state, wires)?;
    }
    text.push('\n')
}

// The cells of a library, or its fault.
fn told(alloc: Global, bytes: &[u8]) -> Result<String, AllocError> {
    let mut text = String::new(alloc);
    match read_library(alloc, bytes) {
        Ok(library) => {
            for cell in library.cells.as_slice() {
                put_cell(alloc, &mut text, cell)?;
            }
            Ok(text)
        }
        Err(LibraryFault::Syntax { at }) => format!(in alloc; "syntax at {at}"),
        Err(LibraryFault::Cell { name, cause }) => {
            let cause = format!(in alloc; "{cause:?}")?;
            worded(alloc, cause.as_str(), name.as_slice())
        }
        Err(LibraryFault::Memory) => String::from_str(alloc, "memory"),
    }
}

// Texts of whole libraries, and what is read.
const WHOLE: [(&str, &str); 20] = [
    ("", "syntax at 0"),
    ("library (x) {", "syntax at 13"),
    ("library (x) }", "syntax at 12"),
    ("library (x) { } ;", ""),
    ("library () { } /* end */ ", ""),
    ("library (x) { } ; ;", "syntax at 18"),
    ("library (x) { a : ; }", "syntax at 18"),
    ("library (x) { a : 1 \"b\"; }", "syntax at 20"),
    ("library (x) { a : b : c; }", "syntax at 20"),
    ("library (x) { a (b,) ; }", "syntax at 19"),
    (
        "library (x) { a (b c : d, \"e\") b : 1.0 * (VDD + 2), 3; define (a, b, c) }",
        "",
    ),
    (
        "library (x) { a (\"1, 2\\\n3\", \\\r\n \"4\"); } \"",
        "syntax at 40",
    ),
    ("libraries (x) { }", "syntax at 0"),
    ("library (x) { cell (a) { } cell (a) { } }", "Duplicate a"),
    (
        "library (x) { cell (AGM_a) { } cell (AGM_a) { } }",
        "Reserved AGM_a",
    ),
    ("library (x) { cell (a) { } cell (a) { } ", "syntax at 40"),
    (
        "library (x) { cell (AND2_X1) { } cell (AND2_X1) { } }",
        "Duplicate AND2_X1",
    ),
    (
        "library (x) { g () { cell (a) { } } cell () { } cell (b); cell (\"c d\", e) { } }",
        "c d\n",
    ),
    (
        "library (x) { cell (\"a\") { area : 1; pin (\"B[3:0]\" C[1 : 0]) { direction : \"input\"; } } }",
        "a B[3:0]< C[1:0]<\n",
    ),
    (
        "library (x) { cell (MUX2_X1) { pin (A, B, S) { direction : input; } pin (Z) { direction : output; function : \"((S & B) | (A & !S))\"; } } cell (DFF_X1) { ff (IQ, IQN) { clocked_on : \"CK\"; next_state : \"D\"; } pin (CK) { direction : input; } pin (D) { direction : input; } pin (Q) { direction : output; function : \"IQ\"; } pin (QN) { direction : output; function : \"IQN\"; } } cell (DFFR_X1) { ff (IQ, IQN) { clocked_on : \"CK\"; next_state : \"D\"; clear : \"!RN\"; } pin (CK, D, RN) { direction : input; } pin (Q) { direction : output; function : \"IQ\"; } } cell (DLH_X1) { latch (IQ, IQN) { enable : \"G\"; data_in : \"D\"; } pin (D, G) { direction : input; } pin (Q) { direction : output; function : \"IQ\"; } } }",
        "MUX2_X1 A< B< S< Z>0101001101010011\nDFF_X1 CK< D< Q>00000000000000001111111111111111 QN>11111111111111110000000000000000 [IQ 0 00110011001100110011001100110011]\nDFFR_X1 AsyncControl\nDLH_X1 Latch\n",
    ),
];

// Cells with a cause and all that come behind it in their order.
const BARRED: [(&str, &str); 12] = [
    (
        "ff (P) { clear : x; } bus () { } latch () { } statetable () { } ff_bank () { } pin (D D) { direction : input; } pin (E) { } pin (G) { direction : input; three_state : x; } pin (Z) { direction : output; } pin (H) { direction : input; function : \"(\"; } pin (K) { direction : input; function : \"X\"; }",
        "c Bus\n",
    ),
    (
        "ff (P) { clear : x; } latch () { } statetable () { } ff_bank () { } pin (D D) { direction : input; } pin (E) { } pin (G) { direction : input; three_state : x; } pin (Z) { direction : output; } pin (H) { direction : input; function : \"(\"; } pin (K) { direction : input; function : \"X\"; }",
        "c Latch\n",
    ),
    (
        "ff (P) { clear : x; } statetable () { } ff_bank () { } pin (D D) { direction : input; } pin (E) { } pin (G) { direction : input; three_state : x; } pin (Z) { direction : output; } pin (H) { direction : input; function : \"(\"; } pin (K) { direction : input; function : \"X\"; }",
        "c StateTable\n",
    ),
    (
        "ff (P) { clear : x; } ff_bank () { } pin (D D) { direction : input; } pin (E) { } pin (G) { direction : input; three_state : x; } pin (Z) { direction : output; } pin (H) { direction : input; function : \"(\"; } pin (K) { direction : input; function : \"X\"; }",
        "c Bank\n",
    ),
    (
        "ff (P) { clear : x; } pin (D D) { direction : input; } pin (E) { } pin (G) { direction : input; three_state : x; } pin (Z) { direction : output; } pin (H) { direction : input; function : \"(\"; } pin (K) { direction : input; function : \"X\"; }",
        "c TwoStates\n",
    ),
    (
        "ff (P, N) { clear : x; } pin (D D) { direction : input; } pin (E) { } pin (G) { direction : input; three_state : x; } pin (Z) { direction : output; } pin (H) { direction : input; function : \"(\"; } pin (K) { direction : input; function : \"X\"; }",
        "c DoublePin\n",
    ),
    (
        "ff (P, N) { clear : x; } pin (E) { } pin (G) { direction : input; three_state : x; } pin (Z) { direction : output; } pin (H) { direction : input; function : \"(\"; } pin (K) { direction : input; function : \"X\"; }",
        "c Direction\n",
    ),
    (
        "ff (P, N) { clear : x; } pin (G) { direction : input; three_state : x; } pin (Z) { direction : output; } pin (H) { direction : input; function : \"(\"; } pin (K) { direction : input; function : \"X\"; }",
        "c ThreeState\n",
    ),
    (
        "ff (P, N) { clear : x; } pin (Z) { direction : output; } pin (H) { direction : input; function : \"(\"; } pin (K) { direction : input; function : \"X\"; }",
        "c AsyncControl\n",
    ),
    (
        "ff (P, N) { } pin (Z) { direction : output; } pin (H) { direction : input; function : \"(\"; } pin (K) { direction : input; function : \"X\"; }",
        "c ClockShape\n",
    ),
    (
        "pin (Z) { direction : output; } pin (H) { direction : input; function : \"(\"; } pin (K) { direction : input; function : \"X\"; }",
        "c NoFunction\n",
    ),
    (
        "pin (H) { direction : input; function : \"(\"; } pin (K) { direction : input; function : \"X\"; }",
        "c FunctionText\n",
    ),
];

// Cells, and what is read of them.
const CELLS: [(&str, &str); 45] = [
    (
        "pin (A B) { direction : input; } pin (Z) { direction : output; function : \"A & B\"; }",
        "c A< B< Z>00010001\n",
    ),
    (
        "pin (Z) { function : \"A+B C^A'\"; direction : output; } pin (A, B, C) { direction : input; }",
        "c Z>0011111100110011 A< B< C<\n",
    ),
    (
        "pin (Z) { direction : output; function : A; function : \"!A\"; } pin (A) { direction : input; direction : inout; }",
        "c Z>0011 A<\n",
    ),
    (
        "pin (Z) { direction : output; function : (A A); timing () { function : \"0\"; } } pin (A) { direction : input; }",
        "c Z>0011 A<\n",
    ),
    (
        "ff (IQ, IQN) { clocked_on : \"CK\"; next_state : \"D\"; } pin (CK D) { direction : input; } pin (Q) { direction : output; function : \"IQ\"; } pin (QN) { direction : output; function : \"IQN\"; }",
        "c CK< D< Q>00000000000000001111111111111111 QN>11111111111111110000000000000000 [IQ 0 00110011001100110011001100110011]\n",
    ),
    (
        "ff (A, B) { clocked_on : C; next_state : B; } pin (C) { direction : input; } pin (A) { direction : input; } pin (Z) { direction : output; function : \"A\"; }",
        "c C< A< Z>0011001100110011 [A 0 1111111100000000]\n",
    ),
    (
        "test_cell () { bus () { } } pg_pin (V) { direction : inout; } pin (A) { direction : input; }",
        "c A<\n",
    ),
    (
        "bus : 1; latch (x); three_state : \"A\"; pin (A) { direction : input; three_state (x); }",
        "c A<\n",
    ),
    ("bus () { }", "c Bus\n"),
    ("latch () { } bundle () { }", "c Bus\n"),
    ("statetable () { } latch_bank () { }", "c Latch\n"),
    ("ff_bank () { } statetable () { }", "c StateTable\n"),
    ("ff (A) { } ff_bank () { }", "c Bank\n"),
    ("pin (A A) { } ff (A) { }", "c TwoStates\n"),
    ("ff (A, B) { } ff (A, B) { }", "c TwoStates\n"),
    ("ff (A, B, C) { }", "c TwoStates\n"),
    ("pin (A A) { }", "c DoublePin\n"),
    (
        "pin (A) { direction : input; } pin (A) { direction : input; }",
        "c DoublePin\n",
    ),
    ("pin (A) { three_state : \"B\"; }", "c Direction\n"),
    ("pin (A) { direction : inout; }", "c Direction\n"),
    (
        "pin (A) { direction : output; three_state : \"B\"; } ff (B, C) { clear : \"A\"; }",
        "c ThreeState\n",
    ),
    (
        "ff (B, C) { clear : \"A\"; clocked_on : \"B\"; }",
        "c AsyncControl\n",
    ),
    ("ff (B, C) { preset : \"A\"; }", "c AsyncControl\n"),
    ("ff (B, C) { clocked_on : \"A\"; }", "c ClockShape\n"),
    (
        "ff (B, C) { } pin (A) { direction : input; }",
        "c ClockShape\n",
    ),
    (
        "ff (B, C) { clocked_on : \" A \"; next_state : 1; } pin (A) { direction : input; }",
        "c ClockShape\n",
    ),
    (
        "ff (B, C) { clocked_on : \"A\"; clocked_on_also : A; } pin (A) { direction : input; }",
        "c ClockShape\n",
    ),
    (
        "ff (B, C) { clocked_on : \"A\"; } pin (A) { direction : output; }",
        "c ClockShape\n",
    ),
    (
        "ff (B, C) { clocked_on : \"A\"; } pin (A) { direction : input; }",
        "c NoFunction\n",
    ),
    (
        "pin (A) { direction : input; function : \"&\"; } pin (Z) { direction : output; }",
        "c NoFunction\n",
    ),
    (
        "pin (A) { direction : input; function : \"&\"; }",
        "c FunctionText\n",
    ),
    (
        "pin (A) { direction : input; function : \"\"; }",
        "c FunctionText\n",
    ),
    (
        "ff (B, C) { clocked_on : \"A\"; next_state : \"X\"; } pin (A) { direction : input; function : \"&\"; }",
        "c FunctionText\n",
    ),
    (
        "ff (B, C) { clocked_on : \"A\"; next_state : \"(\"; } pin (A) { direction : input; function : \"X\"; }",
        "c FunctionText\n",
    ),
    (
        "pin (A) { direction : input; function : \"X\"; }",
        "c UnknownName\n",
    ),
    (
        "pin (A) { direction : output; function : \"A\"; }",
        "c UnknownName\n",
    ),
    (
        "ff (B, C) { clocked_on : \"A\"; next_state : \"X\"; } pin (A) { direction : input; }",
        "c UnknownName\n",
    ),
    (
        "bus () { } latch () { } statetable () { } ff_bank () { } ff () { } pin (A A) { }",
        "c Bus\n",
    ),
    ("pin (A A) { three_state : x; }", "c DoublePin\n"),
    ("pin (A) { } ff (B, C) { clear : x; }", "c Direction\n"),
    (
        "pin (A) { } pin (Z) { direction : output; function : \"(\"; }",
        "c Direction\n",
    ),
    (
        "pin (Z) { direction : output; three_state : x; }",
        "c ThreeState\n",
    ),
    (
        "ff (B, C) { preset : x; } pin (Z) { direction : output; }",
        "c AsyncControl\n",
    ),
    (
        "ff (B, C) { clocked_on : X; next_state : \"(\"; } pin (Z) { direction : output; }",
        "c ClockShape\n",
    ),
    (
        "pin (A) { direction : input; function : \"X\"; } pin (Z) { direction : output; function : \"(\"; }",
        "c FunctionText\n",
    ),
];

// Fails at the first text that is read otherwise between these two.
fn read_all(alloc: Global, front: &str, cases: &[(&str, &str)], behind: &str) -> Result<(), Fail> {
    for (text, wanted) in cases {
        let whole = format!(in alloc; "{front}{text}{behind}")?;
        if told(alloc, whole.as_bytes())?.as_str() != *wanted {
            return Err(Fail::from(*text));
        }
    }
    Ok(())
}

#[test]
fn reads_libraries(rt: HostRuntime) -> Result<(), Fail> {
    read_all(rt.alloc(), "", &WHOLE, "")
}

const FRONT: &str = "library (x) { cell (c) { ";

#[test]
fn reads_cells(rt: HostRuntime) -> Result<(), Fail> {
    read_all(rt.alloc(), FRONT, &CELLS, " } }")?;
    read_all(rt.alloc(), FRONT, &BARRED, " } }")
}

// A library in which so many groups nest.
fn nested(alloc: Global, groups: usize) -> Result<String, AllocError> {
    let mut text = String::new(alloc);
    text.push_str("library ()")?;
    for _ in 1..groups {
        text.push_str("{g()")?;
    }
    text.push('{')?;
    for _ in 0..groups {
        text.push('}')?;
    }
    Ok(text)
}

/// So many groups, and what is read.
const NESTS: [(usize, &str); 4] = [
    (1, ""),
    (100, ""),
    (101, "syntax at 410"),
    (100_000, "syntax at 410"),
];

#[test]
fn groups_nest_100_deep(rt: HostRuntime) -> Result<(), Fail> {
    for (groups, wanted) in NESTS {
        let text = nested(rt.alloc(), groups)?;
        let found = told(rt.alloc(), text.as_bytes())?;
        assert!(rt; found.as_str() == wanted, "at {groups}");
    }
    Ok(())
}
