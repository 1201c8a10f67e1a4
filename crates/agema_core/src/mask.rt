ghost use Rattle.std.specs.Prelude.{◌≡◌, ◌⊎◌, ◌++◌, IsTrue, None, OnOk, OnErr, IfErr, IfOk, ◌↔◌, string_bytes};
ghost use Rattle.agm_shelf.specs.Shelf.{Continues};
ghost use Rattle.agema_core.specs.Words.{IsOrder, mask};
ghost use Rattle.agema_core.specs.Command.{mask_of};
ghost use Rattle.agema_core.specs.Found.{NoReadFailed, counts, found};
ghost use Rattle.agema_core.specs.Answer.{HasCause, IsBuilt};
ghost use Rattle.agema_core.specs.Left.{HasLeft, IsWritesEnd, IsDelivery, Leaves, LeftWhole, LeftPart, OthersKeep};

use crate::files::{print_text, report_file, write_file};
use crate::inputs::read_inputs;
use crate::words::MaskWords;
use agema_answers::{Ended, Refusal};
use agema_texts::{Texts, masked_texts};
use agm_shelf::{Shelf, Sink};
use share_wiring::{Balance, Mode};
use std::alloc::Global;

/// Whether the words ask for what is built.
pub(crate) fn is_built(words: &MaskWords<'_>) -> bool
    ensures { IsTrue result ↔ IsBuilt (mask_of words.now) }
{
    matches!(words.mode, Mode::Naive) && matches!(words.balance, Balance::Pipe)
}

// Writes the two files.
fn write_files<H: Shelf>(
    alloc: Global,
    shelf: &mut H,
    out: &str,
    texts: &Texts,
) -> Result<(), Ended>
    requires { H.pending shelf.old ≡ None }
    ensures pending { H.pending shelf.new ≡ None }
    ensures whole { OnOk result (IsTrue (H.tells shelf.old) → LeftWhole out.now texts.now.net (string_bytes texts.now.report) (H.holds shelf.new)) }
    ensures part { OnErr result (IsTrue (H.tells shelf.old) → LeftPart out.now texts.now.net (string_bytes texts.now.report) (H.holds shelf.old) (H.holds shelf.new)) }
    ensures err { IfErr result (IsWritesEnd out.now (H.sound shelf.old) (H.write_faults shelf.old) (H.write_faults shelf.new)) }
    ensures others { OthersKeep out.now (H.holds shelf.old) (H.holds shelf.new) }
    ensures reads { H.read_faults shelf.new ≡ H.read_faults shelf.old }
    ensures goes_on { Continues H.tells H.sound H.read_faults H.write_faults shelf.old shelf.new }
{
    let report = match report_file(alloc, out) {
        Ok(report) => report,
        Err(_) => return Err(Ended::Memory),
    };
    write_file(alloc, shelf, out, texts.net.as_slice())?;
    write_file(alloc, shelf, report.as_str(), texts.report.as_bytes())
}

// Writes the files and prints the line.
fn deliver<H: Shelf, K: Sink>(
    alloc: Global,
    out: &str,
    texts: &Texts,
    shelf: &mut H,
    sink: &mut K,
) -> Ended
    requires { H.pending shelf.old ≡ None }
    ensures pending { H.pending shelf.new ≡ None }
    ensures left { Leaves out.now texts.now.net (string_bytes texts.now.report) (string_bytes texts.now.line) (H.tells shelf.old) (H.holds shelf.old) (H.holds shelf.new) (K.tells sink.old) (K.taken sink.old) (K.taken sink.new) result }
    ensures end { IsDelivery out.now (H.sound shelf.old) (K.sound sink.old) (H.write_faults shelf.old) (H.write_faults shelf.new) (K.faults sink.old) (K.faults sink.new) result }
    ensures others { OthersKeep out.now (H.holds shelf.old) (H.holds shelf.new) }
    ensures reads { H.read_faults shelf.new ≡ H.read_faults shelf.old }
    ensures goes_on { Continues H.tells H.sound H.read_faults H.write_faults shelf.old shelf.new }
{
    match write_files(alloc, shelf, out, texts) {
        Ok(()) => print_text(sink, texts.line.as_bytes()),
        Err(ended) => ended,
    }
}

/// Masks a netlist.
pub(crate) fn run_mask<H: Shelf, K: Sink>(
    alloc: Global,
    words: &MaskWords<'_>,
    shelf: &mut H,
    sink: &mut K,
) -> Ended
    requires pending { H.pending shelf.old ≡ None }
    requires order { IsOrder words.now.order }
    ensures pending { H.pending shelf.new ≡ None }
    ensures left { HasLeft (mask (mask_of words.now)) (H.tells shelf.old) (H.holds shelf.old) (H.holds shelf.new) (K.tells sink.old) (K.taken sink.old) (K.taken sink.new) result }
    ensures cause { HasCause (mask (mask_of words.now)) (found (H.tells shelf.old) (H.sound shelf.old) (K.sound sink.old) (H.holds shelf.old)) (counts (H.read_faults shelf.old) (H.write_faults shelf.old) (K.faults sink.old)) (counts (H.read_faults shelf.new) (H.write_faults shelf.new) (K.faults sink.new)) result }
    ensures others { OthersKeep words.now.out.now (H.holds shelf.old) (H.holds shelf.new) }
    ensures quiet { NoReadFailed (H.read_faults shelf.old) (H.read_faults shelf.new) result }
{
    if !is_built(words) {
        return Ended::Refused(Refusal::NotBuilt);
    }
    let inputs = match read_inputs(alloc, shelf, words.library, words.net) {
        Ok(inputs) => inputs,
        Err(ended) => return ended,
    };
    match masked_texts(alloc, &inputs.library, inputs.bytes.as_slice(), words.order) {
        Ok(texts) => deliver(alloc, words.out, &texts, shelf, sink),
        Err(ended) => ended,
    }
}
