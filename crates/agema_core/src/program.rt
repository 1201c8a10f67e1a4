ghost use Rattle.std.specs.Prelude.{◌≡◌, None, map, string_bytes, ◌↔◌};
ghost use Rattle.agema_core.specs.Words.{Request, Asks, HasOrder};
ghost use Rattle.agema_core.specs.Command.{request_of};
ghost use Rattle.agema_core.specs.Found.{NoReadFailed, counts, found};
ghost use Rattle.agema_core.specs.Answer.{HasCause, IsComplete};
ghost use Rattle.agema_core.specs.Left.{HasLeft, LeavesAll, OthersStay};

use crate::audit::run_audit;
use crate::both::run_both;
use crate::cones::run_cones;
use crate::mask::run_mask;
use crate::report::run_report;
use crate::sim::run_sim;
use crate::words::{Command, read_command};
use agema_answers::Ended;
use agema_texts::{
    one_audit, one_comparison, one_original, one_probing, one_reading, one_simulation,
};
use agm_shelf::{Shelf, Sink};
use cell_library::one_library;
use std::alloc::Global;

// Runs a command.
fn run_command<H: Shelf, K: Sink>(
    alloc: Global,
    command: &Command<'_>,
    shelf: &mut H,
    out: &mut K,
) -> Ended
    requires pending { H.pending shelf.old ≡ None }
    requires order { HasOrder (request_of command.now) }
    ensures pending { H.pending shelf.new ≡ None }
    ensures left { HasLeft (request_of command.now) (H.tells shelf.old) (H.holds shelf.old) (H.holds shelf.new) (K.tells out.old) (K.taken out.old) (K.taken out.new) result }
    ensures cause { HasCause (request_of command.now) (found (H.tells shelf.old) (H.sound shelf.old) (K.sound out.old) (H.holds shelf.old)) (counts (H.read_faults shelf.old) (H.write_faults shelf.old) (K.faults out.old)) (counts (H.read_faults shelf.new) (H.write_faults shelf.new) (K.faults out.new)) result }
    ensures others { OthersStay (request_of command.now) (H.holds shelf.old) (H.holds shelf.new) }
    ensures quiet { NoReadFailed (H.read_faults shelf.old) (H.read_faults shelf.new) result }
{
    match command {
        Command::Mask(words) => run_mask(alloc, words, shelf, out),
        Command::Sim(words) => run_sim(alloc, words, shelf, out),
        Command::Report(words) => run_report(alloc, words, shelf, out),
        Command::Audit(words) => run_audit(alloc, words, shelf, out),
        Command::Cones(words) => run_cones(alloc, words, shelf, out),
        Command::Both(words) => run_both(alloc, words, shelf, out),
    }
}

/// Runs the command that the words are. `words` are those behind the program's name. Nothing may be pending on the shelf, and nothing
/// is afterwards.
pub fn run<H: Shelf, K: Sink>(alloc: Global, words: &[String], shelf: &mut H, out: &mut K) -> Ended
    requires { H.pending shelf.old ≡ None }
    ensures pending { H.pending shelf.new ≡ None }
    ensures usage { (result ≡ Ended.Usage) ↔ ((r : Request) → Asks (map string_bytes words.now) r → ⊥) }
    ensures refused { result ≡ Ended.Usage → LeavesAll (H.holds shelf.old) (H.holds shelf.new) (K.taken out.old) (K.taken out.new) }
    ensures left { (r : Request) → Asks (map string_bytes words.now) r → HasLeft r (H.tells shelf.old) (H.holds shelf.old) (H.holds shelf.new) (K.tells out.old) (K.taken out.old) (K.taken out.new) result }
    ensures cause { (r : Request) → Asks (map string_bytes words.now) r → HasCause r (found (H.tells shelf.old) (H.sound shelf.old) (K.sound out.old) (H.holds shelf.old)) (counts (H.read_faults shelf.old) (H.write_faults shelf.old) (K.faults out.old)) (counts (H.read_faults shelf.new) (H.write_faults shelf.new) (K.faults out.new)) result }
    ensures complete { (r : Request) → Asks (map string_bytes words.now) r → IsComplete r (found (H.tells shelf.old) (H.sound shelf.old) (K.sound out.old) (H.holds shelf.old)) (counts (H.read_faults shelf.old) (H.write_faults shelf.old) (K.faults out.old)) (counts (H.read_faults shelf.new) (H.write_faults shelf.new) (K.faults out.new)) result }
    ensures others { (r : Request) → Asks (map string_bytes words.now) r → OthersStay r (H.holds shelf.old) (H.holds shelf.new) }
    ensures quiet { NoReadFailed (H.read_faults shelf.old) (H.read_faults shelf.new) result }
{
    one_original();
    one_simulation();
    one_reading();
    one_audit();
    one_probing();
    one_comparison();
    one_library();
    match read_command(words) {
        None => Ended::Usage,
        Some(command) => run_command(alloc, &command, shelf, out),
    }
}
