ghost use Rattle.std.specs.Prelude.{◌≡◌, ◌≢◌, ℕ, IsTrue, Some, None, Err, OnOk, OnErr, take, []};
ghost use Rattle.agm_shelf.specs.Shelf.{Rose, OthersStay, Continues, IsFrontOrOld};

use crate::{PutEnd, Shelf};
use std::alloc::Global;

// The most bytes that are appended at a time.
const PIECE: usize = 65_536;

/// Lets the name hold the whole text, which is written in pieces. After an error it holds what it
/// held or a front of the text. Condition: nothing is pending, and nothing is afterwards.
pub fn write_whole<H: Shelf>(
    alloc: Global,
    shelf: &mut H,
    name: &str,
    text: &[u8],
) -> Result<(), PutEnd>
    requires { H.pending shelf.old ≡ None }
    ensures ok { OnOk result (IsTrue (H.tells shelf.old) → H.holds shelf.new name.now ≡ Some text.now) }
    ensures front { OnErr result (IsTrue (H.tells shelf.old) → IsFrontOrOld text.now (H.holds shelf.old name.now) (H.holds shelf.new name.now)) }
    ensures others { OthersStay name.now (H.holds shelf.old) (H.holds shelf.new) }
    ensures pending { H.pending shelf.new ≡ None }
    ensures failed { result ≡ Err PutEnd.Failed → Rose (H.write_faults shelf.old) (H.write_faults shelf.new) }
    ensures unfailing { IsTrue (H.sound shelf.old) → result ≢ Err PutEnd.Failed }
    ensures reads { H.read_faults shelf.new ≡ H.read_faults shelf.old }
    ensures goes_on { Continues H.tells H.sound H.read_faults H.write_faults shelf.old shelf.new }
{
    shelf.begin(alloc, name)?;
    append_pieces(shelf, name, text)?;
    shelf.end()
}

// Appends a text to the pending output of the name, which is empty, in pieces.
fn append_pieces<H: Shelf>(shelf: &mut H, name: &str, text: &[u8]) -> Result<(), PutEnd>
    requires pending { H.pending shelf.old ≡ Some name.now }
    requires empty { IsTrue (H.tells shelf.old) → H.holds shelf.old name.now ≡ Some [] }
    ensures ok { OnOk result (H.pending shelf.new ≡ Some name.now) }
    ensures whole { OnOk result (IsTrue (H.tells shelf.old) → H.holds shelf.new name.now ≡ Some text.now) }
    ensures err { OnErr result (H.pending shelf.new ≡ None) }
    ensures front { OnErr result (IsTrue (H.tells shelf.old) → (n : ℕ) × (H.holds shelf.new name.now ≡ Some (take n text.now))) }
    ensures others { OthersStay name.now (H.holds shelf.old) (H.holds shelf.new) }
    ensures failed { result ≡ Err PutEnd.Failed → Rose (H.write_faults shelf.old) (H.write_faults shelf.new) }
    ensures unfailing { IsTrue (H.sound shelf.old) → result ≢ Err PutEnd.Failed }
    ensures reads { H.read_faults shelf.new ≡ H.read_faults shelf.old }
    ensures goes_on { Continues H.tells H.sound H.read_faults H.write_faults shelf.old shelf.new }
{
    let mut rest = text;
    while !rest.is_empty() {
        let (piece, more) = rest.split_at(rest.len().min(PIECE));
        shelf.append(piece)?;
        rest = more;
    }
    Ok(())
}
