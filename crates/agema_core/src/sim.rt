ghost use Rattle.std.specs.Prelude.{◌≡◌, ◌≤◌, None};
ghost use Rattle.agm_shelf.specs.Shelf.{AllStay, Continues};
ghost use Rattle.agema_core.specs.Words.{sim};
ghost use Rattle.agema_core.specs.Command.{sim_of};
ghost use Rattle.agema_core.specs.Found.{NoReadFailed, counts, found};
ghost use Rattle.agema_core.specs.Answer.{HasCause};
ghost use Rattle.agema_core.specs.Left.{HasLeft};

use crate::files::{print_text, read_file};
use crate::inputs::read_inputs;
use crate::words::SimWords;
use agema_answers::Ended;
use agema_texts::{clocked_net, simulated};
use agm_shelf::{Shelf, Sink};
use std::alloc::Global;

/// Simulates a netlist.
pub(crate) fn run_sim<H: Shelf, K: Sink>(
    alloc: Global,
    words: &SimWords<'_>,
    shelf: &mut H,
    sink: &mut K,
) -> Ended
    requires { H.pending shelf.old ≡ None }
    ensures pending { H.pending shelf.new ≡ None }
    ensures left { HasLeft (sim (sim_of words.now)) (H.tells shelf.old) (H.holds shelf.old) (H.holds shelf.new) (K.tells sink.old) (K.taken sink.old) (K.taken sink.new) result }
    ensures cause { HasCause (sim (sim_of words.now)) (found (H.tells shelf.old) (H.sound shelf.old) (K.sound sink.old) (H.holds shelf.old)) (counts (H.read_faults shelf.old) (H.write_faults shelf.old) (K.faults sink.old)) (counts (H.read_faults shelf.new) (H.write_faults shelf.new) (K.faults sink.new)) result }
    ensures others { AllStay (H.holds shelf.old) (H.holds shelf.new) }
    ensures quiet { NoReadFailed (H.read_faults shelf.old) (H.read_faults shelf.new) result }
{
    let inputs = match read_inputs(alloc, shelf, words.library, words.net) {
        Ok(inputs) => inputs,
        Err(ended) => return ended,
    };
    let net = match clocked_net(alloc, &inputs.library, inputs.bytes.as_slice()) {
        Ok(net) => net,
        Err(ended) => return ended,
    };
    let stimulus = match read_file(alloc, shelf, words.stimulus) {
        Ok(stimulus) => stimulus,
        Err(ended) => return ended,
    };
    match simulated(alloc, &net, stimulus.as_slice()) {
        Ok(text) => print_text(sink, text.as_slice()),
        Err(ended) => ended,
    }
}
