ghost use Rattle.std.specs.Prelude.{◌≡◌, ◌≤◌, None};
ghost use Rattle.agm_shelf.specs.Shelf.{AllStay};
ghost use Rattle.agema_core.specs.Words.{probing};
ghost use Rattle.agema_core.specs.Command.{probing_of};
ghost use Rattle.agema_core.specs.Found.{NoReadFailed, counts, found};
ghost use Rattle.agema_core.specs.Answer.{HasCause};
ghost use Rattle.agema_core.specs.Left.{HasLeft};

use crate::files::{print_text, read_file};
use crate::words::ConesWords;
use agema_answers::Ended;
use agema_texts::{probed, read_network};
use agm_shelf::{Shelf, Sink};
use std::alloc::Global;

/// Tells what probes of an HPC2 network see.
pub(crate) fn run_cones<H: Shelf, K: Sink>(
    alloc: Global,
    words: &ConesWords<'_>,
    shelf: &mut H,
    sink: &mut K,
) -> Ended
    requires pending { H.pending shelf.old ≡ None }
    requires order { words.now.order ≤ 7 }
    ensures pending { H.pending shelf.new ≡ None }
    ensures left { HasLeft (probing (probing_of words.now)) (H.tells shelf.old) (H.holds shelf.old) (H.holds shelf.new) (K.tells sink.old) (K.taken sink.old) (K.taken sink.new) result }
    ensures cause { HasCause (probing (probing_of words.now)) (found (H.tells shelf.old) (H.sound shelf.old) (K.sound sink.old) (H.holds shelf.old)) (counts (H.read_faults shelf.old) (H.write_faults shelf.old) (K.faults sink.old)) (counts (H.read_faults shelf.new) (H.write_faults shelf.new) (K.faults sink.new)) result }
    ensures others { AllStay (H.holds shelf.old) (H.holds shelf.new) }
    ensures quiet { NoReadFailed (H.read_faults shelf.old) (H.read_faults shelf.new) result }
{
    let text = match read_file(alloc, shelf, words.out) {
        Ok(text) => text,
        Err(ended) => return ended,
    };
    let network = match read_network(alloc, text.as_slice(), words.order) {
        Ok(network) => network,
        Err(ended) => return ended,
    };
    let probes = match read_file(alloc, shelf, words.probes) {
        Ok(probes) => probes,
        Err(ended) => return ended,
    };
    match probed(alloc, &network, probes.as_slice()) {
        Ok(text) => print_text(sink, text.as_slice()),
        Err(ended) => ended,
    }
}
