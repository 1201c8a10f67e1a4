//! Laws on the definitions.

ghost use Rattle.std.specs.Prelude.{◌≡◌, ℕ, Bool, false, List, codes, length, nat_eq};
ghost use Rattle.std.specs.List.{AllByRecursion, starts_with};
ghost use Rattle.agm_net.specs.Loop.{HasNoLoop};
ghost use Rattle.agm_net.specs.Plain.{PlainNet};
ghost use Rattle.agm_net.specs.Trace.{Row, IsTrace};
ghost use Rattle.agm_net.specs.WellFormed.{WellFormed};
ghost use Rattle.agm_net.specs.declared.mark.Mark.{Mark};
ghost use Rattle.share_wiring.specs.Driven.{IsStimulus};
ghost use Rattle.share_wiring.specs.Networks.{IsNetwork, start};
ghost use Rattle.share_wiring.specs.ReportOf.{ReportOf};
ghost use Rattle.share_wiring.specs.Same.{TellsSecrets};
ghost use Rattle.share_wiring.specs.Schedule.{Stream, Drives};
ghost use Rattle.share_wiring.specs.Shape.{Shape};
ghost use Rattle.share_wiring.specs.declared.report.Mode.{Mode};
ghost use Rattle.share_wiring.specs.declared.report.Report.{Report};

use crate::report::Balance;

/// A law: every stimulus drives each net without a loop that has the ports of a masked net with several streams in flight, whatever its
/// power-up contents. The names of the original's ports do not begin with `agm_`.
pub fn is_driven()
    ensures { (original : PlainNet) (marks : List Mark) (secrets : List Bool) (order : ℕ) (mode : Mode) (gadgets latency : ℕ) (report : Report) (net : PlainNet)
        (streams : List Stream) (steps : ℕ) (power : Row) →
        WellFormed original → AllByRecursion (λ p. starts_with nat_eq p.name (codes "agm_") ≡ false) original.ports →
        WellFormed net → HasNoLoop net → Shape original report net →
        ReportOf original marks order mode Balance.Pipe gadgets latency report → TellsSecrets original marks secrets →
        IsStimulus original report streams steps → length power ≡ length net.registers →
        (tape : List Row) × (table : List Row) × IsTrace net power tape table × Drives original secrets report net streams steps table }
{}

/// A law: the net that a builder begins with is a network of each order.
pub fn start_is_network()
    ensures { (d : ℕ) → IsNetwork d start }
{}
