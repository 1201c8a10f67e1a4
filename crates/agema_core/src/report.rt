ghost use Rattle.std.specs.Prelude.{◌≡◌, None};
ghost use Rattle.agm_shelf.specs.Shelf.{AllStay};
ghost use Rattle.agema_core.specs.Words.{reporting};
ghost use Rattle.agema_core.specs.Command.{reporting_of};
ghost use Rattle.agema_core.specs.Found.{NoReadFailed, counts, found};
ghost use Rattle.agema_core.specs.Answer.{HasCause};
ghost use Rattle.agema_core.specs.Left.{HasLeft};

use crate::files::{print_text, read_file, report_file};
use crate::words::ReportWords;
use agema_answers::Ended;
use agema_texts::reported;
use agm_shelf::{Shelf, Sink};
use std::alloc::Global;

/// Prints the line of a report.
pub(crate) fn run_report<H: Shelf, K: Sink>(
    alloc: Global,
    words: &ReportWords<'_>,
    shelf: &mut H,
    sink: &mut K,
) -> Ended
    requires { H.pending shelf.old ≡ None }
    ensures pending { H.pending shelf.new ≡ None }
    ensures left { HasLeft (reporting (reporting_of words.now)) (H.tells shelf.old) (H.holds shelf.old) (H.holds shelf.new) (K.tells sink.old) (K.taken sink.old) (K.taken sink.new) result }
    ensures cause { HasCause (reporting (reporting_of words.now)) (found (H.tells shelf.old) (H.sound shelf.old) (K.sound sink.old) (H.holds shelf.old)) (counts (H.read_faults shelf.old) (H.write_faults shelf.old) (K.faults sink.old)) (counts (H.read_faults shelf.new) (H.write_faults shelf.new) (K.faults sink.new)) result }
    ensures others { AllStay (H.holds shelf.old) (H.holds shelf.new) }
    ensures quiet { NoReadFailed (H.read_faults shelf.old) (H.read_faults shelf.new) result }
{
    let name = match report_file(alloc, words.out) {
        Ok(name) => name,
        Err(_) => return Ended::Memory,
    };
    let text = match read_file(alloc, shelf, name.as_str()) {
        Ok(text) => text,
        Err(ended) => return ended,
    };
    match reported(alloc, text.as_slice()) {
        Ok(line) => print_text(sink, line.as_bytes()),
        Err(ended) => ended,
    }
}
