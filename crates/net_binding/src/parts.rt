ghost use Rattle.std.specs.Prelude.{◌≡◌, ◌++◌, [], Some, None, map, slice_get, IfOk, IfSome};
ghost use Rattle.std.specs.Option.{option_map};
ghost use Rattle.verilog_reader.specs.View.{module_view};
ghost use Rattle.module_outlines.specs.View.{Outlines};
ghost use Rattle.module_rules.specs.Rules.{first_repeated};
ghost use Rattle.net_binding.specs.Ready.{AreOutlines, Ready};
ghost use Rattle.net_binding.specs.Walk.{module_name};

use agm_bits::{List, Memory};
use bound_items::Outlined;
use cell_faces::Cells;
use cell_library::Cell;
use module_outlines::{Outline, outline_of};
use name_table::Names;
use std::alloc::Global;
use verilog_reader::Module;

/// What a walk goes over: modules with their names and outlines, and cells with their tables.
#[derive(Clone, Copy)]
pub(crate) struct Parts<'d> {
    pub(crate) modules: &'d [Module],
    pub(crate) numbers: &'d Names,
    pub(crate) outlines: &'d [Outline],
    pub(crate) known: &'d [Cell],
    pub(crate) library: &'d [Cell],
    pub(crate) cells: &'d Cells,
}

// The module of a number.
fn module_at(modules: &[Module], number: usize) -> Option<&Module>
    ensures { option_map (λ m. m.now) result ≡ slice_get modules.now number }
{
    modules.get(number)
}

// The outline of the module of a number.
fn outline_at(outlines: &[Outline], number: usize) -> Option<&Outline>
    ensures { option_map (λ o. o.now) result ≡ slice_get outlines.now number }
{
    outlines.get(number)
}

/// The module of a number with its outline.
pub(crate) fn outlined<'d>(parts: Parts<'d>, number: usize) -> Option<Outlined<'d>>
    requires { Ready parts.modules.now parts.numbers.now parts.outlines.now (parts.known.now ++ parts.library.now) parts.cells.now }
    ensures { IfSome result (λ o. (slice_get parts.entry.modules.now number ≡ Some o.module.now) × Outlines (module_view o.module.now) o.outline.now) }
{
    match module_at(parts.modules, number) {
        Some(module) => match outline_at(parts.outlines, number) {
            Some(outline) => Some(Outlined { module, outline }),
            None => None,
        },
        None => None,
    }
}

/// The names of the modules of a design, which differ.
pub(crate) fn numbers_of(alloc: Global, modules: &[Module]) -> Result<Names, Memory>
    requires { first_repeated [] (map module_name (map module_view modules.now)) ≡ None }
    ensures { IfOk result (λ t. t ≡ map module_name (map module_view modules.now)) }
{
    let mut numbers = Names::new(alloc);
    for unit in modules {
        numbers.add(unit.name.as_slice())?;
    }
    Ok(numbers)
}

/// The outlines of modules.
pub(crate) fn outlines_of(alloc: Global, modules: &[Module]) -> Result<List<Outline>, Memory>
    ensures { IfOk result (AreOutlines modules.now) }
{
    let mut outlines = List::new(alloc);
    for unit in modules {
        let outline = outline_of(alloc, unit)?;
        outlines.push(outline)?;
    }
    Ok(outlines)
}
