ghost use Rattle.std.specs.Prelude.{◌≡◌, None};
ghost use Rattle.agm_shelf.specs.Shelf.{Continues, OthersStay};
ghost use Rattle.agema_core.specs.Words.{IsOrder, comparing};
ghost use Rattle.agema_core.specs.Command.{comparing_of};
ghost use Rattle.agema_core.specs.Compared.{IsSending, Sends};
ghost use Rattle.agema_core.specs.Found.{NoReadFailed, counts, found};
ghost use Rattle.agema_core.specs.Answer.{HasCause};
ghost use Rattle.agema_core.specs.Left.{HasLeft};

use crate::files::{print_text, read_file, write_file};
use crate::inputs::read_inputs;
use crate::mask::is_built;
use crate::words::BothWords;
use agema_answers::{Ended, Refusal};
use agema_texts::{compared, masked_original};
use agm_shelf::{Shelf, Sink};
use std::alloc::Global;

// Writes OUT and prints the lines.
fn send<H: Shelf, K: Sink>(
    alloc: Global,
    out: &str,
    net: &[u8],
    lines: &[u8],
    shelf: &mut H,
    sink: &mut K,
) -> Ended
    requires { H.pending shelf.old ≡ None }
    ensures pending { H.pending shelf.new ≡ None }
    ensures left { Sends out.now net.now lines.now (H.tells shelf.old) (H.holds shelf.old) (H.holds shelf.new) (K.tells sink.old) (K.taken sink.old) (K.taken sink.new) result }
    ensures end { IsSending out.now (H.sound shelf.old) (K.sound sink.old) (H.write_faults shelf.old) (H.write_faults shelf.new) (K.faults sink.old) (K.faults sink.new) result }
    ensures others { OthersStay out.now (H.holds shelf.old) (H.holds shelf.new) }
    ensures reads { H.read_faults shelf.new ≡ H.read_faults shelf.old }
    ensures goes_on { Continues H.tells H.sound H.read_faults H.write_faults shelf.old shelf.new }
{
    match write_file(alloc, shelf, out, net) {
        Ok(()) => print_text(sink, lines),
        Err(ended) => ended,
    }
}

/// Masks a netlist, and runs it beside the masked one.
pub(crate) fn run_both<H: Shelf, K: Sink>(
    alloc: Global,
    words: &BothWords<'_>,
    shelf: &mut H,
    sink: &mut K,
) -> Ended
    requires pending { H.pending shelf.old ≡ None }
    requires order { IsOrder words.now.mask.order }
    ensures pending { H.pending shelf.new ≡ None }
    ensures left { HasLeft (comparing (comparing_of words.now)) (H.tells shelf.old) (H.holds shelf.old) (H.holds shelf.new) (K.tells sink.old) (K.taken sink.old) (K.taken sink.new) result }
    ensures cause { HasCause (comparing (comparing_of words.now)) (found (H.tells shelf.old) (H.sound shelf.old) (K.sound sink.old) (H.holds shelf.old)) (counts (H.read_faults shelf.old) (H.write_faults shelf.old) (K.faults sink.old)) (counts (H.read_faults shelf.new) (H.write_faults shelf.new) (K.faults sink.new)) result }
    ensures others { OthersStay words.now.mask.out.now (H.holds shelf.old) (H.holds shelf.new) }
    ensures quiet { NoReadFailed (H.read_faults shelf.old) (H.read_faults shelf.new) result }
{
    if !is_built(&words.mask) {
        return Ended::Refused(Refusal::NotBuilt);
    }
    let inputs = match read_inputs(alloc, shelf, words.mask.library, words.mask.net) {
        Ok(inputs) => inputs,
        Err(ended) => return ended,
    };
    let order = words.mask.order;
    let made = match masked_original(alloc, &inputs.library, inputs.bytes.as_slice(), order) {
        Ok(made) => made,
        Err(ended) => return ended,
    };
    let stimulus = match read_file(alloc, shelf, words.stimulus) {
        Ok(stimulus) => stimulus,
        Err(ended) => return ended,
    };
    match compared(alloc, &made, stimulus.as_slice(), &words.seed) {
        Ok(lines) => send(
            alloc,
            words.mask.out,
            made.out.as_slice(),
            lines.as_slice(),
            shelf,
            sink,
        ),
        Err(ended) => ended,
    }
}
