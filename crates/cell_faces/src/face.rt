ghost use Rattle.std.specs.Prelude.{◌≡◌, ◌++◌, ◌∷◌, [], map, length, IfOk, OnOk};
ghost use Rattle.std.specs.List.{range_with_len};
ghost use Rattle.cell_library.specs.Found.{raw_name};
ghost use Rattle.cell_faces.specs.View as view;
ghost use Rattle.cell_faces.specs.Cells.{pin_spot};

use crate::Cells;
use agm_bits::{List, Memory, Name};
use cell_library::{Cell, Pin};
use form_bits::{Scope, Spot};
use name_table::Names;
use std::alloc::Global;

// Adds a name that is new to a table. One that is not is want of memory, which the caller knows not to come.
fn add_new(table: &mut Names, name: &Name) -> Result<(), Memory>
    ensures { OnOk result (table.new ≡ table.old ++ name.now ∷ []) }
{
    if table.add(name.as_slice())?.is_new {
        Ok(())
    } else {
        Err(Memory)
    }
}

// A table of the names of pins.
fn pin_table(alloc: Global, pins: &[Pin]) -> Result<Names, Memory>
    ensures { IfOk result (λ t. t ≡ map view.raw_pin_name pins.now) }
{
    let mut table = Names::new(alloc);
    for pin in pins {
        add_new(&mut table, &pin.name)?;
    }
    Ok(table)
}

// The spots of so many pins.
fn pin_spots(alloc: Global, count: usize) -> Result<List<Spot>, Memory>
    ensures { IfOk result (λ spots. spots ≡ map pin_spot (range_with_len 0 count)) }
{
    let mut spots = List::new(alloc);
    for first in 0..count {
        spots.push(Spot { first, range: None })?;
    }
    Ok(spots)
}

// The pins of a cell by their names.
fn face_of(alloc: Global, cell: &Cell) -> Result<Scope, Memory>
    ensures { IfOk result (λ s. view.face_view s ≡ view.raw_face cell.now) }
{
    let names = pin_table(alloc, cell.pins.as_slice())?;
    let spots = pin_spots(alloc, cell.pins.len())?;
    Ok(Scope { names, spots })
}

// Adds the names of cells.
fn add_names(table: &mut Names, cells: &[Cell]) -> Result<(), Memory>
    ensures { OnOk result (table.new ≡ table.old ++ map raw_name cells.now) }
{
    for cell in cells {
        add_new(table, &cell.name)?;
    }
    Ok(())
}

// Adds the faces of cells.
fn add_faces(alloc: Global, faces: &mut List<Scope>, cells: &[Cell]) -> Result<(), Memory>
    ensures { OnOk result (map view.face_view faces.new ≡ map view.face_view faces.old ++ map view.raw_face cells.now) }
{
    for cell in cells {
        let face = face_of(alloc, cell)?;
        faces.push(face)?;
    }
    Ok(())
}

/// The tables of the cells that are known without a library and of a library's, whose names differ.
///
/// # Errors
///
/// `Memory` where memory runs out, or where two cells or two pins of a cell have one name.
pub fn cells_of(alloc: Global, known: &[Cell], library: &[Cell]) -> Result<Cells, Memory>
    ensures { IfOk result (view.Tables (known.now ++ library.now)) }
{
    let mut names = Names::new(alloc);
    add_names(&mut names, known)?;
    add_names(&mut names, library)?;
    let mut faces = List::new(alloc);
    add_faces(alloc, &mut faces, known)?;
    add_faces(alloc, &mut faces, library)?;
    Ok(Cells { names, faces })
}
