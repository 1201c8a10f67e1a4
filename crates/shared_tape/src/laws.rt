//! What the tape of a masked net does.

ghost use Rattle.std.specs.Prelude.{◌≡◌, ℕ, List, Some};
ghost use Rattle.agm_net.specs.Plain.{PlainNet};
ghost use Rattle.agm_net.specs.Trace.{Row};
ghost use Rattle.share_wiring.specs.declared.report.Report.{Report};
ghost use Rattle.stimulus.specs.Fits.{Fits};
ghost use Rattle.stimulus.specs.declared.stimuli.Stream.{Stream};
ghost use Rattle.shared_tape.specs.Driven.{HasSchedule, DrivesNet};

/// A law: with any random bits, the tape for a stimulus drives each net that has the ports of a masked net and its schedule,
/// with that stimulus, filled up to the report's streams.
pub fn tapes_drive()
    ensures { (original : PlainNet) (report : Report) (net : PlainNet) (streams : List Stream) (seed : List ℕ) (rows : List Row) →
        HasSchedule original report net → Fits original (Some report.streams) streams → DrivesNet original report net streams seed rows }
{}
