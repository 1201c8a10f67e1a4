ghost use Rattle.std.specs.Prelude.{◌≡◌, ◌+◌, ◌*◌, ℕ, List, Some, All, IfOk, IfErr, length, map};
ghost use Rattle.std.specs.List.{flat_map, enumerate_from};
ghost use Rattle.agm_net.specs.Loop.{HasNoLoop};
ghost use Rattle.agm_net.specs.Plain.{PlainNet};
ghost use Rattle.agm_net.specs.Trace.{Row};
ghost use Rattle.agm_net.specs.View.{plain_of};
ghost use Rattle.cycle_sim.specs.Told.{TellsLoop};
ghost use Rattle.share_wiring.specs.ReportOf.{streams_of};
ghost use Rattle.stimulus.specs.Fits.{Fits};
ghost use Rattle.side_by_side.specs.Beside.{AreColumns, ArePairs, seen_in};
ghost use Rattle.side_by_side.specs.Pairs as spec;

use crate::Pair;
use crate::masked_run::seen_of;
use crate::plain_run::push_stream;
use crate::watched::{Watched, watched_of};
use agm_bits::{BitRow, List, Memory};
use agm_net::Net;
use cycle_sim::SimFault;
use share_wiring::{Masked, Report};
use shared_tape::share_out;
use std::alloc::Global;
use stimulus::Stimulus;

// The pairs of all streams.
fn pairs_of(
    alloc: Global,
    net: &Net,
    report: &Report,
    watched: &[Watched],
    seen: &[List<List<BitRow>>],
    stimulus: &Stimulus,
) -> Result<List<Pair>, Memory>
    requires no_loop { HasNoLoop (plain_of net.now) }
    requires fits { Fits (plain_of net.now) (Some report.now.streams) stimulus.now.streams }
    requires period { report.now.period ≡ report.now.latency + 1 }
    requires turns { report.now.streams ≡ streams_of report.now.balance report.now.period }
    requires long { (steps : ℕ) → All (λ s. length s.steps ≡ steps) stimulus.now.streams → length seen.now ≡ report.now.period * steps + report.now.streams }
    requires all_seen { All (λ rows. length rows ≡ length watched.now) seen.now }
    ensures { (masked : PlainNet) (table : List Row) → watched.now ≡ map (spec.watched_of report.now masked) (spec.numbered_outputs net.now.ports) → seen.now ≡ map (seen_in watched.now) table
        → IfOk result (ArePairs (plain_of net.now) report.now masked table stimulus.now.streams) }
{
    let mut pairs = List::new(alloc);
    for (number, stream) in stimulus.streams.as_slice().iter().enumerate() {
        push_stream(
            alloc, &mut pairs, net, report, watched, seen, number, stream,
        )?;
    }
    Ok(pairs)
}

/// The output ports of a net and what a masked net has for them, in each stream and step of a stimulus: the one from the
/// net's own run, and the other from a run of the masked net, whatever that computes, from registers at 0 with shares and
/// random bits that are drawn from a seed. In the order of streams, steps and ports.
///
/// Takes time linear in the number of cycles times the size of the masked net.
///
/// # Errors
///
/// `Loop` where the masked net has a loop, and `Memory` where memory runs out.
pub fn columns(
    alloc: Global,
    net: &Net,
    masked: &Masked,
    stimulus: &Stimulus,
    seed: &[u8; 32],
) -> Result<List<Pair>, SimFault>
    requires no_loop { HasNoLoop (plain_of net.now) }
    requires fits { Fits (plain_of net.now) (Some masked.now.report.streams) stimulus.now.streams }
    requires period { masked.now.report.period ≡ masked.now.report.latency + 1 }
    requires turns { masked.now.report.streams ≡ streams_of masked.now.report.balance masked.now.report.period }
    ensures pairs { IfOk result (AreColumns (plain_of net.now) masked.now.report (plain_of masked.now.net) stimulus.now.streams seed.now) }
    ensures looped { IfErr result (TellsLoop (plain_of masked.now.net)) }
{
    let tape = share_out(alloc, net, masked, stimulus, seed)?;
    let watched = watched_of(alloc, net, masked)?;
    let watched = watched.as_slice();
    let report = &masked.report;
    let seen = seen_of(
        alloc,
        &masked.net,
        watched,
        tape.rows.as_slice(),
        report.random,
        seed,
    )?;
    Ok(pairs_of(alloc, net, report, watched, seen.as_slice(), stimulus)?)
}
