//! Outlines of modules.

use crate::designs::design_of;
use agm_bits::Name;
use module_outlines::{inner_bits, outline_of};
use std::alloc::Global;
use std::test::Fail;
use test_netlists::words::put_names;
use verilog_reader::Module;

/// A module, the bits of its names inside an instance u, and how many there are.
const MODULES: [(&str, &str, usize); 4] = [
    (
        "module m(b, a); input a; output [1:0] b; endmodule",
        "u.b[1] u.b[0] u.a",
        3,
    ),
    (
        "module m(a); wire [0:2] w; wire a; input a; wire v; endmodule",
        "u.a u.w[0] u.w[1] u.w[2] u.v",
        5,
    ),
    ("module m; wire [7:7] w; endmodule", "u.w[7]", 1),
    ("module m; endmodule", "", 0),
];

// Whether the bits of a module's names inside an instance u are these, and so many.
fn has_bits(alloc: Global, unit: &Module, wanted: &str, width: usize) -> Result<bool, Fail> {
    let outline = outline_of(alloc, unit)?;
    let prefix = Name::from_slice(alloc, b"u.")?;
    let bits = inner_bits(alloc, &prefix, outline.wides.as_slice())?;
    let mut text = String::new(alloc);
    put_names(&mut text, bits.as_slice())?;
    Ok(text.as_str() == wanted && outline.width == width)
}

// Fails at the first module that is outlined otherwise.
fn outline_all(alloc: Global, cases: &[(&str, &str, usize)]) -> Result<(), Fail> {
    for (module, wanted, width) in cases {
        let design = design_of(alloc, module)?;
        match design.modules.as_slice() {
            [unit] if has_bits(alloc, unit, wanted, *width)? => (),
            _ => return Err(Fail::from(*module)),
        }
    }
    Ok(())
}

#[test]
fn modules_have_bits(rt: HostRuntime) -> Result<(), Fail> {
    outline_all(rt.alloc(), &MODULES)
}
