ghost use Rattle.std.specs.Prelude.{◌≡◌, ◌≤◌, IsTrue, Some, None, Ok, Err, OnOk, OnErr, IfErr, IfOk, length, map};
ghost use Rattle.agm_shelf.specs.Shelf.{AllStay, Continues};
ghost use Rattle.cell_library.specs.Spelled.{cell_of};
ghost use Rattle.agema_texts.specs.Original.{length_limit};
ghost use Rattle.agema_core.specs.Found.{IsDash, IsLibrary, IsWrongLibrary, AreCells, IsLibraryEnd, IsInputEnd, NoReadFailed, found};
ghost use Rattle.agema_core.specs.Left.{IsUntouched};

use crate::files::read_file;
use agema_answers::{Ended, Refusal};
use agm_shelf::Shelf;
use cell_library::{Library, LibraryFault, read_library};
use std::alloc::Global;

/// The cells of LIB and the bytes of NET.
#[derive(Drop)]
pub(crate) struct Inputs {
    pub library: Library,
    pub bytes: Vec<u8>,
}

// The library that bytes spell.
fn library_of(alloc: Global, bytes: &[u8]) -> Result<Library, Ended>
    requires { length bytes.now ≤ length_limit }
    ensures ok { IfOk result (λ l. IsLibrary (map cell_of l.cells) bytes.now) }
    ensures err { IfErr result (IsWrongLibrary bytes.now) }
{
    match read_library(alloc, bytes) {
        Ok(library) => Ok(library),
        Err(LibraryFault::Syntax { at }) => Err(Ended::Refused(Refusal::LibrarySyntax { at })),
        Err(LibraryFault::Cell { name, cause }) => {
            Err(Ended::Refused(Refusal::Cell { name, cause }))
        }
        Err(LibraryFault::Memory) => Err(Ended::Memory),
    }
}

// Reads the library, where one is named.
fn take_library<H: Shelf>(alloc: Global, shelf: &mut H, name: &str) -> Result<Library, Ended>
    requires { H.pending shelf.old ≡ None }
    ensures pending { H.pending shelf.new ≡ None }
    ensures ok { IfOk result (λ l. IsTrue (H.tells shelf.old) → AreCells name.now (H.holds shelf.old) (map cell_of l.cells)) }
    ensures named { OnErr result (IsDash name.now → ⊥) }
    ensures err { IfErr result (IsLibraryEnd name.now (H.tells shelf.old) (H.sound shelf.old) (H.holds shelf.old name.now) (H.read_faults shelf.old) (H.read_faults shelf.new)) }
    ensures untouched { IfErr result IsUntouched }
    ensures quiet { OnOk result (H.read_faults shelf.new ≡ H.read_faults shelf.old) }
    ensures told { IfErr result (NoReadFailed (H.read_faults shelf.old) (H.read_faults shelf.new)) }
    ensures same { AllStay (H.holds shelf.old) (H.holds shelf.new) }
    ensures goes_on { Continues H.tells H.sound H.read_faults H.write_faults shelf.old shelf.new }
{
    if name == "-" {
        return Ok(Library::empty(alloc));
    }
    match read_file(alloc, shelf, name) {
        Ok(bytes) => library_of(alloc, bytes.as_slice()),
        Err(ended) => Err(ended),
    }
}

/// Reads the library, where one is named, and then the netlist.
pub(crate) fn read_inputs<H: Shelf>(
    alloc: Global,
    shelf: &mut H,
    library: &str,
    net: &str,
) -> Result<Inputs, Ended>
    requires { H.pending shelf.old ≡ None }
    ensures pending { H.pending shelf.new ≡ None }
    ensures cells { IfOk result (λ i. IsTrue (H.tells shelf.old) → AreCells library.now (H.holds shelf.old) (map cell_of i.library.cells)) }
    ensures bytes { IfOk result (λ i. IsTrue (H.tells shelf.old) → H.holds shelf.old net.now ≡ Some i.bytes.items) }
    ensures within { IfOk result (λ i. length i.bytes.items ≤ length_limit) }
    ensures err { (prints : Rattle.std.specs.Prelude.Bool) → IfErr result (IsInputEnd library.now net.now (found (H.tells shelf.old) (H.sound shelf.old) prints (H.holds shelf.old)) (H.read_faults shelf.old) (H.read_faults shelf.new)) }
    ensures untouched { IfErr result IsUntouched }
    ensures quiet { OnOk result (H.read_faults shelf.new ≡ H.read_faults shelf.old) }
    ensures told { IfErr result (NoReadFailed (H.read_faults shelf.old) (H.read_faults shelf.new)) }
    ensures same { AllStay (H.holds shelf.old) (H.holds shelf.new) }
    ensures goes_on { Continues H.tells H.sound H.read_faults H.write_faults shelf.old shelf.new }
{
    let library = match take_library(alloc, shelf, library) {
        Ok(library) => library,
        Err(ended) => return Err(ended),
    };
    match read_file(alloc, shelf, net) {
        Ok(bytes) => Ok(Inputs { library, bytes }),
        Err(ended) => Err(ended),
    }
}
