//! That a written design is read again.

ghost use Rattle.verilog_reader.specs.Grammar.{Spelled};
ghost use Rattle.verilog_reader.specs.Plain.{PlainDesign};
ghost use Rattle.design_text.specs.Writable.{IsWritableDesign};
ghost use Rattle.design_text.specs.Written as spec;

/// The text of a design spells the design, where the design can be written.
pub fn text_spells()
    ensures { (d : PlainDesign) → IsWritableDesign d → Spelled (spec.design_text d) d }
{}
