ghost use Rattle.std.specs.Prelude.{◌≡◌, ◌++◌, map, slice_get, Some, None, MatchOption};
ghost use Rattle.std.specs.Option.{option_map};
ghost use Rattle.cell_library.specs.Spelled.{cell_of};
ghost use Rattle.cell_faces.specs.Cells as spec;
ghost use Rattle.cell_faces.specs.View as view;
ghost use Rattle.cell_faces.specs.Found.{IsFound};

use crate::Cells;
use agm_bits::Name;
use cell_library::Cell;
use form_bits::Scope;

/// A cell with its pins.
#[derive(Clone, Copy)]
pub struct Found<'c> {
    pub cell: &'c Cell,
    pub face: &'c Scope,
}

// The cell of a number.
fn cell_at<'c>(known: &'c [Cell], library: &'c [Cell], number: usize) -> Option<&'c Cell>
    ensures { option_map (λ c. c.now) result ≡ slice_get (known.now ++ library.now) number }
{
    if number < known.len() {
        known.get(number)
    } else {
        library.get(number - known.len())
    }
}

// The pins of the cell of a number.
fn face_at(faces: &[Scope], number: usize) -> Option<&Scope>
    ensures { option_map (λ s. s.now) result ≡ slice_get faces.now number }
{
    faces.get(number)
}

/// The cell of a name with its pins; None exactly where there is none.
pub fn find_cell<'c>(
    cells: &'c Cells,
    known: &'c [Cell],
    library: &'c [Cell],
    name: &Name,
) -> Option<Found<'c>>
    requires { view.Tables (known.now ++ library.now) cells.now }
    ensures { MatchOption result (spec.find_cell (map cell_of (known.now ++ library.now)) name.now ≡ None) (λ f. IsFound (map cell_of (known.now ++ library.now)) name.now (cell_of f.cell.now) f.face.now) }
{
    match cells.names.find(name.as_slice()) {
        Some(number) => match cell_at(known, library, number) {
            Some(cell) => match face_at(cells.faces.as_slice(), number) {
                Some(face) => Some(Found { cell, face }),
                None => None,
            },
            None => None,
        },
        None => None,
    }
}
