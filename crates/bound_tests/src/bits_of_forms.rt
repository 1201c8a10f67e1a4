//! Forms over the names of a module.

use crate::designs::design_of;
use agm_bits::{List, Memory};
use agm_net::Range;
use form_bits::{Bit, Scope, Spot, first_unknown, form_width, push_bits};
use name_table::Names;
use std::alloc::{AllocError, Global};
use std::test::Fail;
use test_netlists::words::{put_number, worded};
use verilog_reader::{Form, Item, Module};

/// Forms over a, b[3:0] and c[0:2], which stand in this order, each with its width and its bits or the name that is unknown.
const FORMS: [(&str, usize, &str); 19] = [
    ("a", 1, "10"),
    ("b", 4, "11 12 13 14"),
    ("b[3]", 1, "11"),
    ("b[0]", 1, "14"),
    ("b[2:1]", 2, "12 13"),
    ("b[2:2]", 1, "12"),
    ("c", 3, "15 16 17"),
    ("c[0:1]", 2, "15 16"),
    ("c[2:2]", 1, "17"),
    ("4'b0110", 4, "F T T F"),
    ("{a, c[1], 1'b1}", 3, "10 16 T"),
    ("{2{b[1:0]}}", 4, "13 14 13 14"),
    ("{{2{a}}, {1{{c}}}}", 5, "10 10 15 16 17"),
    ("d", 0, "unknown d"),
    ("d[1]", 1, "unknown d"),
    ("a[0]", 1, "unknown a[0]"),
    ("b[4]", 1, "unknown b[4]"),
    ("b[0:3]", 4, "unknown b[0:3]"),
    ("{c[1:0], d}", 2, "unknown c[1:0]"),
];

fn add(scope: &mut Scope, name: &str, first: usize, range: Option<Range>) -> Result<(), Memory> {
    scope.names.add(name.as_bytes())?;
    scope.spots.push(Spot { first, range })
}

fn scope(alloc: Global) -> Result<Scope, Memory> {
    let mut scope = Scope {
        names: Names::new(alloc),
        spots: List::new(alloc),
    };
    add(&mut scope, "a", 0, None)?;
    add(&mut scope, "b", 1, Some(Range { msb: 3, lsb: 0 }))?;
    add(&mut scope, "c", 5, Some(Range { msb: 0, lsb: 2 }))?;
    Ok(scope)
}

fn put_bit(alloc: Global, text: &mut String, bit: Bit) -> Result<(), AllocError> {
    match bit {
        Bit::Constant(false) => text.push('F'),
        Bit::Constant(true) => text.push('T'),
        Bit::Wire(wire) => put_number(alloc, text, wire as u128),
    }
}

fn bits_text(alloc: Global, bits: &[Bit]) -> Result<String, AllocError> {
    let mut text = String::new(alloc);
    for bit in bits {
        if !text.is_empty() {
            text.push(' ')?;
        }
        put_bit(alloc, &mut text, *bit)?;
    }
    Ok(text)
}

// The bits of a form, or the name that is unknown in it.
fn told(alloc: Global, scope: &Scope, form: &Form) -> Result<String, Fail> {
    match first_unknown(alloc, scope, form)? {
        Some(name) => Ok(worded(alloc, "unknown", name.as_slice())?),
        None => {
            let mut bits = List::new(alloc);
            push_bits(alloc, scope, 10, form, &mut bits)?;
            Ok(bits_text(alloc, bits.as_slice())?)
        }
    }
}

// The right side of a module's one assign.
fn right(unit: &Module) -> Option<&Form> {
    match unit.items.as_slice() {
        [Item::Assign { right, .. }] => Some(right),
        _ => None,
    }
}

// Whether a form has this width, and these bits or this name that is unknown.
fn is_measured(
    alloc: Global,
    scope: &Scope,
    form: &str,
    width: usize,
    wanted: &str,
) -> Result<bool, Fail> {
    let text = format!(in alloc; "module m; assign x = {form}; endmodule")?;
    let design = design_of(alloc, text.as_str())?;
    match design.modules.as_slice() {
        [unit] => match right(unit) {
            Some(form) => Ok(
                form_width(scope, form) == width && told(alloc, scope, form)?.as_str() == wanted,
            ),
            None => Err(Fail::from("no assign")),
        },
        _ => Err(Fail::from("no module")),
    }
}

// Fails at the first form that is measured otherwise.
fn measure_all(alloc: Global, cases: &[(&str, usize, &str)]) -> Result<(), Fail> {
    let scope = scope(alloc)?;
    for (form, width, wanted) in cases {
        if !is_measured(alloc, &scope, form, *width, wanted)? {
            return Err(Fail::from(*form));
        }
    }
    Ok(())
}

#[test]
fn forms_have_bits(rt: HostRuntime) -> Result<(), Fail> {
    measure_all(rt.alloc(), &FORMS)
}
