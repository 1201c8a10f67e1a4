ghost use Rattle.std.specs.Prelude.{◌≡◌, ◌++◌, ◌∷◌, [], map, not, cond, IfOk, Some, None, codes, nat_eq};
ghost use Rattle.std.specs.List.{starts_with};
ghost use Rattle.std.specs.Option.{option_map};
ghost use Rattle.cell_library.specs.Found.{raw_name};
ghost use Rattle.verilog_reader.specs.View.{item_view, module_view, design_view};
ghost use Rattle.module_rules.specs.Items.{is_among, ports_of, ports_in};
ghost use Rattle.module_rules.specs.Rules as spec;
ghost use Rattle.module_rules.specs.View.{scope_view};
ghost use Rattle.module_rules.specs.declared.fault.NameFault.TheVariants.{Clash, UnknownWire};

use crate::fault::NameFault;
use crate::names::{add, first_repeated, found, is_in, table_of};
use crate::scope::{Scope, declare_items, first_taken};
use agm_bits::{List, Memory, Name};
use cell_library::Library;
use name_table::Names;
use std::alloc::Global;
use verilog_reader::{Design, Item, Module};

// Whether a cell of the library has a name.
fn is_cell(library: &Library, name: &Name) -> bool
    ensures { result ≡ is_among (map raw_name library.now.cells) name.now }
{
    library.cell(name.as_slice()).is_some()
}

// Whether a name begins as those of the cells that are known without a library.
fn is_reserved(name: &Name) -> bool
    ensures { result ≡ starts_with nat_eq name.now (codes "AGM_") }
{
    name.as_slice().starts_with(b"AGM_")
}

// Whether a module may not have a name.
fn is_taken(library: &Library, earlier: &Names, name: &Name) -> bool
    ensures { result ≡ spec.is_taken (map raw_name library.now.cells) earlier.now name.now }
{
    is_in(earlier, name) || is_cell(library, name) || is_reserved(name)
}

// The first name that is not in a table.
fn first_unknown(alloc: Global, table: &Names, names: &[Name]) -> Result<Option<Name>, Memory>
    ensures { IfOk result (λ o. o ≡ spec.first_unknown table.now names.now) }
{
    for name in names {
        if !is_in(table, name) {
            return found(alloc, name);
        }
    }
    Ok(None)
}

// The first name that an item declares with a way and that is not in a table.
fn item_unlisted(alloc: Global, table: &Names, item: &Item) -> Result<Option<Name>, Memory>
    ensures { IfOk result (λ o. o ≡ spec.first_unknown table.now (ports_of (item_view item.now))) }
{
    match item {
        Item::Declare {
            way: Some(_),
            names,
            ..
        } => first_unknown(alloc, table, names.as_slice()),
        _ => Ok(None),
    }
}

// The first name that items declare with a way and that is not in a table.
fn first_unlisted(alloc: Global, table: &Names, items: &[Item]) -> Result<Option<Name>, Memory>
    ensures { IfOk result (λ o. o ≡ spec.first_unknown table.now (ports_in (map item_view items.now))) }
{
    for item in items {
        match item_unlisted(alloc, table, item)? {
            Some(name) => return Ok(Some(name)),
            None => (),
        }
    }
    Ok(None)
}

// The first name that clashes behind the module's name and its listed ports, or the first that is unknown.
fn body_fault(alloc: Global, module: &Module) -> Result<Option<NameFault>, Memory>
    requires { spec.first_repeated [] «module».now.ports ≡ None }
    ensures { IfOk result (λ o. o ≡ spec.body_fault (module_view «module».now)) }
{
    let items = module.items.as_slice();
    let mut scope = Scope::new(alloc);
    if let Some(name) = declare_items(alloc, &mut scope, items)? {
        return Ok(Some(NameFault::Clash(name)));
    }
    if let Some(name) = first_taken(alloc, &scope, items)? {
        return Ok(Some(NameFault::Clash(name)));
    }
    if let Some(name) = first_unknown(alloc, &scope.ports, module.ports.as_slice())? {
        return Ok(Some(NameFault::UnknownWire(name)));
    }
    let listed = table_of(alloc, module.ports.as_slice())?;
    match first_unlisted(alloc, &listed, items)? {
        Some(name) => Ok(Some(NameFault::UnknownWire(name))),
        None => Ok(None),
    }
}

// The first rule that is broken in a module, behind modules with earlier names.
fn module_fault(
    alloc: Global,
    library: &Library,
    earlier: &Names,
    module: &Module,
) -> Result<Option<NameFault>, Memory>
    ensures { IfOk result (λ o. o ≡ spec.module_fault (map raw_name library.now.cells) earlier.now (module_view «module».now)) }
{
    if is_taken(library, earlier, &module.name) {
        let name = Name::from_slice(alloc, module.name.as_slice())?;
        return Ok(Some(NameFault::Clash(name)));
    }
    if let Some(name) = first_repeated(alloc, module.ports.as_slice())? {
        return Ok(Some(NameFault::Clash(name)));
    }
    body_fault(alloc, module)
}

/// The first rule for names that is broken in a design over the cells of a library.
///
/// Takes near linear time.
///
/// # Errors
///
/// `Memory` where memory runs out.
pub fn check_modules(
    alloc: Global,
    library: &Library,
    design: &Design,
) -> Result<Option<NameFault>, Memory>
    ensures { IfOk result (λ o. o ≡ spec.first_fault (map raw_name library.now.cells) [] (design_view design.now)) }
{
    let mut earlier = Names::new(alloc);
    for module in design.modules.as_slice() {
        if let Some(fault) = module_fault(alloc, library, &earlier, module)? {
            return Ok(Some(fault));
        }
        let _ = add(&mut earlier, &module.name)?;
    }
    Ok(None)
}
