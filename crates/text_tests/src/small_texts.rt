//! Modules as they are written: the layout, which no clause says.

use crate::fitting::small_fits;
use agm_bits::{List, Memory, Name};
use agm_net::{Mark, Range, Way};
use small_text::{Bit, Declaration, Item, Small, Source, write_small};
use std::alloc::Global;
use std::str::from_utf8;
use std::test::Fail;
use test_netlists::parts::names_of;

/// A name, with the number of its select where there is one.
type Pin = (&'static str, Option<u32>);

/// A declaration.
#[derive(Clone, Copy)]
enum Row {
    Port(Mark, Way, Option<Range>, &'static str),
    Wires(&'static [&'static str]),
}

/// An assign of a bit or of a constant, or a cell: its instance and its pins.
#[derive(Clone, Copy)]
enum Line {
    Assign(Pin, Pin),
    Set(Pin, bool),
    Not(&'static str, Pin, Pin),
    Xor(&'static str, Pin, Pin, Pin),
    And(&'static str, Pin, Pin, Pin),
    Register(&'static str, Pin, Pin, Pin),
}

/// A module, and its text.
#[derive(Clone, Copy)]
struct Sample {
    name: &'static str,
    ports: &'static [&'static str],
    rows: &'static [Row],
    lines: &'static [Line],
    text: &'static str,
}

const WIDE: Option<Range> = Some(Range { msb: 65535, lsb: 0 });

const SAMPLES: [Sample; 4] = [
    Sample {
        name: "m",
        ports: &["a"],
        rows: &[],
        lines: &[],
        text: "module m(a);\nendmodule\n",
    },
    Sample {
        name: "agm_top",
        ports: &["agm_clk", "a"],
        rows: &[
            Row::Port(Mark::Clock, Way::Input, None, "agm_clk"),
            Row::Port(Mark::Secure, Way::Input, WIDE, "a"),
            Row::Port(Mark::Unmarked, Way::Output, None, "y"),
        ],
        lines: &[],
        text: "module agm_top(agm_clk, a);\n  (* AGEMA = \"clock\" *) input agm_clk;\n  (* AGEMA = \"secure\" *) input [65535:0] a;\n  output y;\nendmodule\n",
    },
    Sample {
        name: "module",
        ports: &["a"],
        rows: &[
            Row::Port(Mark::Unmarked, Way::Input, None, "a"),
            Row::Wires(&["b.c", "w$1"]),
        ],
        lines: &[
            Line::Assign(("b.c", None), ("a", Some(0))),
            Line::Set(("w$1", None), false),
            Line::Set(("x", Some(2)), true),
        ],
        text: "module \\module (a);\n  input a;\n  wire \\b.c , w$1;\n  assign \\b.c  = a[0];\n  assign w$1 = 1'b0;\n  assign x[2] = 1'b1;\nendmodule\n",
    },
    Sample {
        name: "m",
        ports: &["a"],
        rows: &[],
        lines: &[
            Line::Not("n", ("a", None), ("b", None)),
            Line::Xor("x", ("a", None), ("b", None), ("c", None)),
            Line::And("3", ("a", Some(7)), ("b[7]", None), ("c", None)),
            Line::Register("r", ("k", None), ("d", None), ("q", None)),
        ],
        text: "module m(a);\n  AGM_NOT n (.A(a), .Y(b));\n  AGM_XOR2 x (.A(a), .B(b), .Y(c));\n  AGM_AND2 \\3  (.A(a[7]), .B(\\b[7] ), .Y(c));\n  AGM_DFF r (.C(k), .D(d), .Q(q));\nendmodule\n",
    },
];

fn name_of(alloc: Global, name: &str) -> Result<Name, Memory> {
    Name::from_slice(alloc, name.as_bytes())
}

fn bit_of(alloc: Global, pin: Pin) -> Result<Bit, Memory> {
    let (name, index) = pin;
    let name = name_of(alloc, name)?;
    Ok(Bit { name, index })
}

fn declaration_of(alloc: Global, row: Row) -> Result<Declaration, Memory> {
    match row {
        Row::Port(mark, way, range, name) => Ok(Declaration::Port {
            mark,
            way,
            range,
            name: name_of(alloc, name)?,
        }),
        Row::Wires(names) => Ok(Declaration::Wires(names_of(alloc, names)?)),
    }
}

// The name of an instance, and the bits at three pins.
fn parts_of(alloc: Global, name: &str, pins: [Pin; 3]) -> Result<(Name, Bit, Bit, Bit), Memory> {
    let [first, second, third] = pins;
    let name = name_of(alloc, name)?;
    let first = bit_of(alloc, first)?;
    let second = bit_of(alloc, second)?;
    let third = bit_of(alloc, third)?;
    Ok((name, first, second, third))
}

fn inverter(alloc: Global, name: &str, a: Pin, y: Pin) -> Result<Item, Memory> {
    let name = name_of(alloc, name)?;
    let a = bit_of(alloc, a)?;
    let y = bit_of(alloc, y)?;
    Ok(Item::Not { name, a, y })
}

fn assign(alloc: Global, target: Pin, from: Pin) -> Result<Item, Memory> {
    let target = bit_of(alloc, target)?;
    let source = Source::Bit(bit_of(alloc, from)?);
    Ok(Item::Assign { target, source })
}

fn item_of(alloc: Global, line: Line) -> Result<Item, Memory> {
    match line {
        Line::Assign(target, from) => assign(alloc, target, from),
        Line::Set(target, value) => {
            let target = bit_of(alloc, target)?;
            let source = Source::Constant(value);
            Ok(Item::Assign { target, source })
        }
        Line::Not(name, a, y) => inverter(alloc, name, a, y),
        Line::Xor(name, a, b, y) => {
            let (name, a, b, y) = parts_of(alloc, name, [a, b, y])?;
            Ok(Item::Xor { name, a, b, y })
        }
        Line::And(name, a, b, y) => {
            let (name, a, b, y) = parts_of(alloc, name, [a, b, y])?;
            Ok(Item::And { name, a, b, y })
        }
        Line::Register(name, c, d, q) => {
            let (name, c, d, q) = parts_of(alloc, name, [c, d, q])?;
            Ok(Item::Register { name, c, d, q })
        }
    }
}

// The module of a sample.
fn module_of(alloc: Global, sample: &Sample) -> Result<Small, Memory> {
    let name = name_of(alloc, sample.name)?;
    let ports = names_of(alloc, sample.ports)?;
    let mut declarations = List::new(alloc);
    for row in sample.rows {
        declarations.push(declaration_of(alloc, *row)?)?;
    }
    let mut items = List::new(alloc);
    for line in sample.lines {
        items.push(item_of(alloc, *line)?)?;
    }
    Ok(Small {
        name,
        ports,
        declarations,
        items,
    })
}

// The text of a module, None where it can't be written.
fn written(alloc: Global, small: &Small) -> Result<Option<Name>, Memory> {
    if !small_fits(small) {
        return Ok(None);
    }
    Ok(Some(write_small(alloc, small)?))
}

// Fails at the first sample that is written otherwise.
fn compare(alloc: Global, samples: &[Sample]) -> Result<(), Fail> {
    for sample in samples {
        let small = module_of(alloc, sample)?;
        let found = written(alloc, &small)?;
        match found {
            Some(text) if from_utf8(text.as_slice()) == Ok(sample.text) => {}
            _ => return Err(Fail::from(sample.text)),
        }
    }
    Ok(())
}

#[test]
fn writes(rt: HostRuntime) -> Result<(), Fail> {
    compare(rt.alloc(), SAMPLES.as_slice())
}
