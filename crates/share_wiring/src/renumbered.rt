ghost use Rattle.std.specs.Prelude.{List};
ghost use Rattle.agm_net.specs.Plain.{PlainNet};
ghost use Rattle.agm_net.specs.Renumbered.{Renumbered};
ghost use Rattle.agm_net.specs.declared.mark.Mark.{Mark};
ghost use Rattle.share_wiring.specs.declared.report.Report.{Report};
ghost use Rattle.share_wiring.specs.Same.{Same};

/// A law: where a masked net computes the original, so does each net that is the same up to the numbers of its wires.
pub fn renumbered_is_same()
    ensures { (original : PlainNet) (marks : List Mark) (report : Report) (net other : PlainNet) → Same original marks report net → Renumbered net other → Same original marks report other }
{}
