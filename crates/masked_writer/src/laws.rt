ghost use Rattle.std.specs.Prelude.{◌≡◌, ◌⊎◌, ℕ, Option, Result, Err};
ghost use Rattle.serde_json.specs.Data.{Data};
ghost use Rattle.masked_writer.specs.Stated.{Answers, States};
ghost use Rattle.masked_writer.specs.declared.fault.ReportFault.{ReportFault};
ghost use Rattle.masked_writer.specs.declared.fault.ReportFault.TheVariants.{Memory};
ghost use Rattle.share_wiring.specs.declared.report.Report.{Report};

/// A law: a value states one report in one version at most, and there is one right answer for bytes, but for want of memory.
pub fn one_report()
    ensures states { (d : Data) (r s : Report) (v w : ℕ) → States d r v → States d s w → (r ≡ s) × (v ≡ w) }
    ensures answers { (d : Option Data) (a b : Result Report ReportFault) → Answers d a → Answers d b → ((a ≡ Err Memory) ⊎ (b ≡ Err Memory)) ⊎ (a ≡ b) }
{}
