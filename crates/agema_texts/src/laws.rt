ghost use Rattle.std.specs.Prelude.{◌≡◌, ◌≤◌, ℕ, List, length};
ghost use Rattle.agm_net.specs.Plain.{PlainNet};
ghost use Rattle.agm_net.specs.declared.mark.Mark as mark_type;
ghost use Rattle.cell_library.specs.Judged.{PlainCell};
ghost use Rattle.stimulus.specs.declared.stimuli.Stream as stream_type;
ghost use Rattle.agema_answers.specs.declared.refusal.Refusal as refusal_type;
ghost use Rattle.agema_texts.specs.Original.{IsOriginal, IsUnread, BreaksRead, length_limit};
ghost use Rattle.agema_texts.specs.Auditing.{Audits, CanAudit, IsUnaudited};
ghost use Rattle.agema_texts.specs.Comparing.{CanCompare, IsUncompared};
ghost use Rattle.agema_texts.specs.Masks.{CanMask, IsUnmasked, Masks};
ghost use Rattle.agema_texts.specs.Probing.{CanProbe, Cones, IsUnprobed};
ghost use Rattle.agema_texts.specs.Reported.{CanReport, IsBadReport};
ghost use Rattle.agema_texts.specs.Sims.{IsClocked, CanSim, HasStreams, IsBadStimulus, IsUnclocked, IsUndriven};

use agm_net::one_label;
use masked_writer::one_report;
use probe_lists::{one_list, probes_fit};
use stimulus::texts_are_one;
use verilog_reader::one_design;

/// A law: over given cells the bytes of a netlist determine the original, and its marks. So what is masked is not refused.
pub fn one_original()
    ensures original { (cells : List PlainCell) (bytes : List ℕ) (m n : PlainNet) (marks others : List mark_type.Mark) → IsOriginal cells bytes m marks → IsOriginal cells bytes n others → (m ≡ n) × (marks ≡ others) }
    ensures masked { (cells : List PlainCell) (bytes : List ℕ) (order : ℕ) (refusal : refusal_type.Refusal) → CanMask cells bytes order → IsUnmasked cells bytes order refusal → ⊥ }
{
    one_design();
}

/// A law: over given cells the bytes of a netlist determine the net that is run, and a text its stimulus. So what is simulated is not refused.
pub fn one_simulation()
    ensures net { (cells : List PlainCell) (bytes : List ℕ) (m n : PlainNet) → IsClocked cells bytes m → IsClocked cells bytes n → m ≡ n }
    ensures clocked { (cells : List PlainCell) (bytes : List ℕ) (net : PlainNet) (refusal : refusal_type.Refusal) → IsClocked cells bytes net → IsUnclocked cells bytes refusal → ⊥ }
    ensures driven { (cells : List PlainCell) (bytes stimulus : List ℕ) (refusal : refusal_type.Refusal) → CanSim cells bytes stimulus → IsUndriven cells bytes stimulus refusal → ⊥ }
{
    one_design();
    texts_are_one();
}

/// A law: over given cells the bytes of a netlist and a text of a stimulus determine whether they are run side by side. What is, is not refused.
pub fn one_comparison()
    ensures { (cells : List PlainCell) (bytes : List ℕ) (order : ℕ) (stimulus : List ℕ) (refusal : refusal_type.Refusal) →
        CanCompare cells bytes order stimulus → IsUncompared cells bytes order stimulus refusal → ⊥ }
{
    one_design();
    texts_are_one();
}

/// A law: a text states one report at most. So what states one is not refused.
pub fn one_reading()
    ensures { (text : List ℕ) (refusal : refusal_type.Refusal) → CanReport text → IsBadReport text refusal → ⊥ }
{
    one_report();
}

/// A law: the bytes of a netlist determine what an audit prints. What is printed is not refused; and what `mask` writes is audited, unless
/// it is too long to be read.
pub fn one_audit()
    ensures printed { (bytes : List ℕ) (order : ℕ) (p q : List ℕ) → Audits bytes order p → Audits bytes order q → p ≡ q }
    ensures passed { (bytes : List ℕ) (order : ℕ) (refusal : refusal_type.Refusal) → CanAudit bytes order → IsUnaudited bytes order refusal → ⊥ }
    ensures masked { (cells : List PlainCell) (bytes : List ℕ) (order : ℕ) (out file line : List ℕ) → Masks cells bytes order out file line → length out ≤ length_limit → CanAudit out order }
{
    one_design();
}

/// A law: the bytes of a netlist and a text of probes determine what is printed of the probes. What is printed is not refused.
pub fn one_probing()
    ensures printed { (bytes : List ℕ) (order : ℕ) (text p q : List ℕ) → Cones bytes order text p → Cones bytes order text q → p ≡ q }
    ensures passed { (bytes : List ℕ) (order : ℕ) (text : List ℕ) (refusal : refusal_type.Refusal) → CanProbe bytes order text → IsUnprobed bytes order text refusal → ⊥ }
{
    one_design();
    one_label();
    one_list();
    probes_fit();
}
