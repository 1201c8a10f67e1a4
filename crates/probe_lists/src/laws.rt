//! What is known of probes that were read.

ghost use Rattle.std.specs.Prelude.{◌≡◌, ℕ, List, Option, Ok, Err, length};
ghost use Rattle.serde_json.specs.Data.{Data};
ghost use Rattle.probe_cones.specs.declared.probe.Probes.{Probes};
ghost use Rattle.probe_lists.specs.Answer.{Answers};
ghost use Rattle.probe_lists.specs.Fit.{AreFit};
ghost use Rattle.probe_lists.specs.declared.fault.ProbeCause as cause_type;
ghost use Rattle.probe_lists.specs.declared.fault.ProbeFault.TheVariants as fault;

/// A law: probes of a text that was read fit the net and the order.
pub fn probes_fit()
    ensures { (wires : List (List ℕ)) (order : ℕ) (value : Option Data) (asked : Probes) →
        Answers wires order value (Ok asked) → AreFit (length wires) order asked }
{}

/// A law: a text has one list of probes of a net at most, and what is read is not refused.
pub fn one_list()
    ensures read { (wires : List (List ℕ)) (order : ℕ) (value : Option Data) (a b : Probes) →
        Answers wires order value (Ok a) → Answers wires order value (Ok b) → a ≡ b }
    ensures not_bad { (wires : List (List ℕ)) (order : ℕ) (value : Option Data) (a : Probes) (cause : cause_type.ProbeCause) (index : ℕ) →
        Answers wires order value (Ok a) → Answers wires order value (Err (fault.Bad cause index)) → ⊥ }
{}
