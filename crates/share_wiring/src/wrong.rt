//! Laws that a wrong masking is told from a right one.

ghost use Rattle.std.specs.Prelude.{◌==◌, ◌<◌, ◌^◌, ℕ, List, IsTrue};
ghost use Rattle.std.specs.List.{list_any};
ghost use Rattle.agm_net.specs.Loop.{HasNoLoop};
ghost use Rattle.agm_net.specs.Plain.{PlainNet};
ghost use Rattle.agm_net.specs.WellFormed.{WellFormed};
ghost use Rattle.agm_net.specs.declared.mark.Mark.{Mark};
ghost use Rattle.agm_net.specs.declared.port.Port.{Port};
ghost use Rattle.share_wiring.specs.Inverted.{inverted_at, IsUnread, IsShareOf, IsDriven};
ghost use Rattle.share_wiring.specs.Same.{Same};
ghost use Rattle.share_wiring.specs.Shape.{Shape};
ghost use Rattle.share_wiring.specs.WorkedWire.{through, through_marks, through_report, masked_through};
ghost use Rattle.share_wiring.specs.declared.report.Report.{Report};

/// A law: a masked net that computes the original, with the equation of one share of any output inverted that nothing else reads, is a net
/// with the ports of a masked net and without a loop. Where some stimulus drives the masked net, it is not the same as the original.
pub fn inverted_is_not_same()
    ensures { (original : PlainNet) (marks : List Mark) (report : Report) (net : PlainNet) (n i m u : ℕ) (p q : Port) →
        WellFormed original → WellFormed net → Same original marks report net → report.order < 2 ^ 32 →
        IsShareOf original report net n i m u p q → IsUnread net u → IsTrue (list_any (λ l. l.0 == u) net.lines) →
        WellFormed (inverted_at u net) × Shape original report (inverted_at u net) × HasNoLoop (inverted_at u net) ×
        (IsDriven original marks report net → Same original marks report (inverted_at u net) → Prim.⊥) }
{}

/// A law: the net whose output is its input, masked by hand, is the same as the original, and is driven by a stimulus.
pub fn masked_through_is_same()
    ensures { WellFormed through × WellFormed masked_through × Same through through_marks through_report masked_through × IsDriven through through_marks through_report masked_through }
{}

/// A law: with share 0 of its output inverted it is a net with the same ports and without a loop, and is not the same. So not every net with
/// the right ports and without a loop is the same as an original.
pub fn not_all_are_same()
    ensures { WellFormed (inverted_at 4 masked_through) × Shape through through_report (inverted_at 4 masked_through) × HasNoLoop (inverted_at 4 masked_through) ×
        (Same through through_marks through_report (inverted_at 4 masked_through) → Prim.⊥) }
{}
