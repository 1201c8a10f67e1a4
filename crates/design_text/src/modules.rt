//! Modules.

ghost use Rattle.std.specs.Prelude.{◌≡◌, ◌++◌, OnOk, IfOk};
ghost use Rattle.verilog_reader.specs.View.{design_view, item_view, module_view};
ghost use Rattle.design_text.specs.Parts.{parts_text};
ghost use Rattle.design_text.specs.Written as spec;

use crate::items::{attributes, item_text};
use crate::names::{name, names};
use agm_bits::{Memory, Name};
use std::alloc::Global;
use verilog_reader::{Attribute, Design, Module};

/// Appends `module name(ports);` behind its attributes.
pub fn head_text(
    alloc: Global,
    text: &mut Name,
    before: &[Attribute],
    title: &Name,
    ports: &[Name],
) -> Result<(), Memory>
    ensures { OnOk result (text.new ≡ text.old ++ parts_text (spec.head_parts before.now title.now ports.now)) }
{
    attributes(alloc, text, before)?;
    text.extend(b"module ")?;
    name(text, title.as_slice())?;
    text.extend(b"(")?;
    names(text, ports)?;
    text.extend(b");")
}

/// Appends `endmodule` on a line of its own.
pub fn end_text(text: &mut Name) -> Result<(), Memory>
    ensures { OnOk result (text.new ≡ text.old ++ parts_text spec.last_parts) }
{
    text.extend(b"\nendmodule\n")
}

// A module.
fn module_text(alloc: Global, text: &mut Name, whole: &Module) -> Result<(), Memory>
    ensures { OnOk result (text.new ≡ text.old ++ parts_text (spec.module_parts (module_view whole.now))) }
{
    head_text(
        alloc,
        text,
        whole.attributes.as_slice(),
        &whole.name,
        whole.ports.as_slice(),
    )?;
    for item in whole.items.as_slice() {
        item_text(alloc, text, item)?;
    }
    end_text(text)
}

/// The text of a design: a declaration, an assign or an instance a line, two spaces before it.
///
/// # Errors
///
/// `Memory` where memory runs out.
pub fn design_text(alloc: Global, design: &Design) -> Result<Name, Memory>
    ensures { IfOk result (λ text. text ≡ spec.design_text (design_view design.now)) }
{
    let mut text = Name::new(alloc);
    for next in design.modules.as_slice() {
        module_text(alloc, &mut text, next)?;
    }
    Ok(text)
}
