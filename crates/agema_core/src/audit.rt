ghost use Rattle.std.specs.Prelude.{◌≡◌, ◌≤◌, None};
ghost use Rattle.agm_shelf.specs.Shelf.{AllStay};
ghost use Rattle.agema_core.specs.Words.{auditing};
ghost use Rattle.agema_core.specs.Command.{auditing_of};
ghost use Rattle.agema_core.specs.Found.{NoReadFailed, counts, found};
ghost use Rattle.agema_core.specs.Answer.{HasCause};
ghost use Rattle.agema_core.specs.Left.{HasLeft};

use crate::files::{print_text, read_file};
use crate::words::AuditWords;
use agema_answers::Ended;
use agema_texts::audited;
use agm_shelf::{Shelf, Sink};
use std::alloc::Global;

/// Tells whether a netlist is an HPC2 network.
pub(crate) fn run_audit<H: Shelf, K: Sink>(
    alloc: Global,
    words: &AuditWords<'_>,
    shelf: &mut H,
    sink: &mut K,
) -> Ended
    requires pending { H.pending shelf.old ≡ None }
    requires order { words.now.order ≤ 7 }
    ensures pending { H.pending shelf.new ≡ None }
    ensures left { HasLeft (auditing (auditing_of words.now)) (H.tells shelf.old) (H.holds shelf.old) (H.holds shelf.new) (K.tells sink.old) (K.taken sink.old) (K.taken sink.new) result }
    ensures cause { HasCause (auditing (auditing_of words.now)) (found (H.tells shelf.old) (H.sound shelf.old) (K.sound sink.old) (H.holds shelf.old)) (counts (H.read_faults shelf.old) (H.write_faults shelf.old) (K.faults sink.old)) (counts (H.read_faults shelf.new) (H.write_faults shelf.new) (K.faults sink.new)) result }
    ensures others { AllStay (H.holds shelf.old) (H.holds shelf.new) }
    ensures quiet { NoReadFailed (H.read_faults shelf.old) (H.read_faults shelf.new) result }
{
    let text = match read_file(alloc, shelf, words.out) {
        Ok(text) => text,
        Err(ended) => return ended,
    };
    match audited(alloc, text.as_slice(), words.order) {
        Ok(line) => print_text(sink, line.as_bytes()),
        Err(ended) => ended,
    }
}
