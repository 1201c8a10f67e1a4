ghost use Rattle.std.specs.Prelude.{◌≡◌, ◌++◌, ◌∷◌, [], true, Some, None, cond, map, IfOk};
ghost use Rattle.std.specs.List.{list_all};
ghost use Rattle.std.specs.Option.{option_map};
ghost use Rattle.cell_library.specs.declared.types.CellCause.TheVariants.{Duplicate, Reserved};
ghost use Rattle.cell_library.specs.Found.{cell_by, raw_name};
ghost use Rattle.cell_library.specs.Kept.{is_kept};
ghost use Rattle.cell_library.specs.Spelled.{cell_of, first_fault, name_fault, is_reserved as reserved};

use crate::scope::add;
use crate::types::{Cell, CellCause};
use agm_bits::{List, Memory, Name};
use name_table::Names;
use std::alloc::Global;

/// The cells of a library, in the order of the text. Their names differ, and none begins with `AGM_`. One that is barred has no pins and
/// no state. In every other the pins have different names, each output pin has a function, the clock is an input pin, and functions and
/// the next state read nothing but input pins and, where there is one, the state.
#[derive(Debug, Drop)]
pub struct Library {
    pub cells: List<Cell>,
    names: Names,
    ghost tied: { names ≡ map raw_name cells },
    ghost named: { first_fault [] (map raw_name cells) ≡ None },
    ghost kept: { list_all is_kept (map cell_of cells) ≡ true },
}

impl Library {
    /// A library without cells.
    pub fn empty(alloc: Global) -> Library
        ensures { result.cells ≡ [] }
    {
        Library {
            cells: List::new(alloc),
            names: Names::new(alloc),
        }
    }

    // A library of these cells, which have these names.
    pub(crate) fn new(cells: List<Cell>, names: Names) -> Library
        requires tied { names ≡ map raw_name cells }
        requires named { first_fault [] (map raw_name cells) ≡ None }
        requires kept { list_all is_kept (map cell_of cells) ≡ true }
        ensures { result.cells ≡ cells }
    {
        Library { cells, names }
    }

    /// The cell of a name, None exactly where there is none. Takes constant time on average.
    pub fn cell(&self, name: &[u8]) -> Option<&Cell>
        ensures { option_map (λ c. c.now) result ≡ cell_by self.now.cells name.now }
    {
        match self.names.find(name) {
            Some(number) => self.cells.as_slice().get(number),
            None => None,
        }
    }
}

// Whether a name begins as those of the cells that are known without a library.
fn is_reserved(name: &[u8]) -> bool
    ensures { result ≡ reserved name.now }
{
    name.starts_with(b"AGM_")
}

// What is wrong with a name, by whether no earlier one is the same and whether it is reserved.
fn fault_of(is_new: bool, is_reserved: bool) -> Option<CellCause>
    ensures { result ≡ cond is_new (cond is_reserved (Some Reserved) None) (Some Duplicate) }
{
    if !is_new {
        Some(CellCause::Duplicate)
    } else if is_reserved {
        Some(CellCause::Reserved)
    } else {
        None
    }
}

/// What is wrong with a cell's name behind earlier ones, to which it is added where it is new.
pub(crate) fn add_name(names: &mut Names, name: &Name) -> Result<Option<CellCause>, Memory>
    ensures { IfOk result (λ o. (o ≡ name_fault names.old name.now) × (o ≡ None → names.new ≡ names.old ++ name.now ∷ [])) }
{
    let is_new = add(names, name)?;
    let is_reserved = is_reserved(name.as_slice());
    Ok(fault_of(is_new, is_reserved))
}
