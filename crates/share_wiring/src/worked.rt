//! Laws on a worked example with a register: a toggle, and a masked toggle that was made by hand.

ghost use Rattle.std.specs.Prelude.{◌≡◌, ◌<◌, ◌+◌, ◌*◌, ◌↔◌, ℕ, List, [], ◌∷◌, true, codes};
ghost use Rattle.agm_net.specs.Loop.{HasNoLoop};
ghost use Rattle.agm_net.specs.Secret.{IsSecret};
ghost use Rattle.agm_net.specs.Trace.{Row, IsTrace, bit_at};
ghost use Rattle.agm_net.specs.WellFormed.{WellFormed};
ghost use Rattle.share_wiring.specs.Recombine.{masked_value};
ghost use Rattle.share_wiring.specs.ReportOf.{ReportOf};
ghost use Rattle.share_wiring.specs.Same.{TellsSecrets, Same};
ghost use Rattle.share_wiring.specs.Schedule.{Drives, stream_at, reading_cycle};
ghost use Rattle.share_wiring.specs.Shape.{Shape};
ghost use Rattle.share_wiring.specs.Worked.{bits, toggle, toggle_marks, toggle_tape, toggle_table, toggle_report, masked_toggle, toggle_streams, masked_power, masked_tape, masked_table};

use crate::{Balance, Mode};

/// A law: the toggle is a net, and has no loop, since its state is read through a register.
pub fn toggle_is_a_net()
    ensures { WellFormed toggle × HasNoLoop toggle }
{}

/// A law: it has this trace.
pub fn toggle_runs()
    ensures { IsTrace toggle (bits (codes "0")) toggle_tape toggle_table }
{}

/// A law: every wire but the clock is secret, the state through the register.
pub fn toggle_is_secret()
    ensures { (w : ℕ) → w < 6 → (0 < w) ↔ IsSecret toggle toggle_marks w }
{}

/// A law: masked at order 1 with one gadget of latency 2, it has this report.
pub fn toggle_is_reported()
    ensures { ReportOf toggle toggle_marks 1 Mode.Naive Balance.Pipe 1 2 toggle_report }
{}

/// A law: the masked toggle is a net with the ports of one and without a loop.
pub fn masked_toggle_is_a_net()
    ensures { WellFormed masked_toggle × Shape toggle toggle_report masked_toggle × HasNoLoop masked_toggle }
{}

/// A law: three streams of two steps drive this trace of it.
pub fn masked_toggle_is_driven()
    ensures { IsTrace masked_toggle masked_power masked_tape masked_table ×
        TellsSecrets toggle toggle_marks (true ∷ []) ×
        Drives toggle (true ∷ []) toggle_report masked_toggle toggle_streams 2 masked_table }
{}

/// A law: the masked toggle computes the toggle, in every trace that is driven.
pub fn masked_toggle_is_same()
    ensures { Same toggle toggle_marks toggle_report masked_toggle }
{}
