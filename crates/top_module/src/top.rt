ghost use Rattle.std.specs.Prelude.{◌≡◌, ◌<◌, ◌||◌, ◌++◌, ◌∷◌, [], if◌then◌else◌, ℕ, List, not, map, length, OnOk, IfOk};
ghost use Rattle.std.specs.List.{list_any};
ghost use Rattle.std.specs.Str.{bytes_eq};
ghost use Rattle.verilog_reader.specs.View.{item_view, module_view, design_view};
ghost use Rattle.top_module.specs.Top as spec;

use agm_bits::{List, Memory};
use name_table::Names;
use std::alloc::Global;
use verilog_reader::{Design, Item, Module};

/// Why a design has no top module.
#[derive(Clone, Copy, Debug, PartialEq, Eq)]
pub enum TopFault {
    /// There are so many candidates, and not one.
    Candidates(usize),
    /// Want of memory.
    Memory,
}

impl From<Memory> for TopFault {
    ghost use Rattle.std.specs.Prelude.{◌≡◌};
    ghost use Rattle.top_module.specs.declared.top.TopFault.TheVariants.{Memory};

    ghost from_gives = { λ _ fault. fault ≡ Memory };

    fn from(_: Memory) -> Self {
        TopFault::Memory
    }
}

// Adds the name of an instance's cell.
fn add_cell(names: &mut Names, item: &Item) -> Result<(), Memory>
    ensures { OnOk result ((name : List ℕ) → list_any (λ n. bytes_eq n name) names.new ≡ (list_any (λ n. bytes_eq n name) names.old || spec.instantiates name (item_view item.now))) }
{
    if let Item::Instance { cell, .. } = item {
        names.add(cell.as_slice())?;
    }
    Ok(())
}

// Adds the names of the cells of a module's instances.
fn add_cells(names: &mut Names, items: &[Item]) -> Result<(), Memory>
    ensures { OnOk result ((name : List ℕ) → list_any (λ n. bytes_eq n name) names.new ≡ (list_any (λ n. bytes_eq n name) names.old || list_any (λ item. spec.instantiates name (item_view item)) items.now)) }
{
    for item in items {
        add_cell(names, item)?;
    }
    Ok(())
}

// The names of the cells of all instances.
fn cell_names(alloc: Global, modules: &[Module]) -> Result<Names, Memory>
    ensures { IfOk result (λ names. (name : List ℕ) → list_any (λ n. bytes_eq n name) names ≡ list_any (λ m. list_any (λ item. spec.instantiates name (item_view item)) m.items) modules.now) }
{
    let mut names = Names::new(alloc);
    for unit in modules {
        add_cells(&mut names, unit.items.as_slice())?;
    }
    Ok(names)
}

// Whether a module has the attribute `top`.
fn has_top(unit: &Module) -> bool
    ensures { result ≡ spec.has_top (module_view unit.now) }
{
    unit.attributes
        .as_slice()
        .iter()
        .any(|attribute| attribute.name.as_slice() == b"top".as_slice())
}

// Adds a number, where it passes.
fn push_if(numbers: &mut List<usize>, number: usize, passes: bool) -> Result<(), Memory>
    ensures { OnOk result (numbers.new ≡ (if passes then numbers.old ++ number ∷ [] else numbers.old)) }
{
    if passes {
        numbers.push(number)?;
    }
    Ok(())
}

// The numbers of the modules with the attribute `top`.
fn marked(alloc: Global, modules: &[Module]) -> Result<List<usize>, Memory>
    ensures { IfOk result (λ numbers. numbers ≡ spec.marked (map module_view modules.now)) }
{
    let mut numbers = List::new(alloc);
    for (number, unit) in modules.iter().enumerate() {
        push_if(&mut numbers, number, has_top(unit))?;
    }
    Ok(numbers)
}

// The numbers of the modules whose names are not among these.
fn others(alloc: Global, modules: &[Module], names: &Names) -> Result<List<usize>, Memory>
    ensures { IfOk result (λ numbers. numbers ≡ spec.numbers_of (λ m. not (list_any (λ n. bytes_eq n m.name) names.now)) (map module_view modules.now)) }
{
    let mut numbers = List::new(alloc);
    for (number, unit) in modules.iter().enumerate() {
        let is_other = names.find(unit.name.as_slice()).is_none();
        push_if(&mut numbers, number, is_other)?;
    }
    Ok(numbers)
}

// The candidates for the top, in text order.
fn candidates(alloc: Global, modules: &[Module]) -> Result<List<usize>, Memory>
    ensures { IfOk result (λ numbers. numbers ≡ spec.candidates (map module_view modules.now)) }
{
    let marked = marked(alloc, modules)?;
    if marked.len() == 1 {
        return Ok(marked);
    }
    let names = cell_names(alloc, modules)?;
    others(alloc, modules, &names)
}

/// The number of a design's top module, counted from 0 in text order: the module with the attribute `top`, if exactly one has
/// it, and else the one module that no module instantiates. Takes near linear time.
///
/// # Errors
///
/// `Candidates` where neither sentence gives one module, with the number of modules that no module instantiates.
pub fn find_top(alloc: Global, design: &Design) -> Result<usize, TopFault>
    ensures answer { spec.IsTopAnswer (design_view design.now) result }
    ensures within { IfOk result (λ number. number < length design.now.modules) }
{
    let candidates = candidates(alloc, design.modules.as_slice())?;
    match candidates.as_slice() {
        [number] => Ok(*number),
        numbers => Err(TopFault::Candidates(numbers.len())),
    }
}
