ghost use Rattle.std.specs.Prelude.{◌≡◌, ◌≤◌, ℕ, List, length, MatchResult};
ghost use Rattle.verilog_reader.specs.Plain.{PlainDesign};
ghost use Rattle.verilog_reader.specs.Grammar.{Spelled};
ghost use Rattle.verilog_reader.specs.View.{design_view};
ghost use Rattle.verilog_reader.specs.Answer.{IsFault};

use crate::modules::design;
use crate::stop::Stop;
use crate::{Design, DesignFault};
use std::alloc::Global;
use verilog_tokens::within_line;

/// The design that the bytes spell. `Syntax` comes exactly where they spell none.
pub fn read_design(alloc: Global, bytes: &[u8]) -> Result<Design, DesignFault>
    ensures { MatchResult result (λ d. Spelled bytes.now (design_view d)) (λ e. IsFault bytes.now e) }
{
    match design(alloc, within_line(bytes)) {
        Ok(design) => Ok(design),
        Err(Stop::Wrong(left)) => Err(DesignFault::Syntax {
            at: bytes.len().saturating_sub(left),
        }),
        Err(Stop::Memory) => Err(DesignFault::Memory),
    }
}

/// No bytes spell two designs.
pub fn one_design()
    ensures { (bytes : List ℕ) (d e : PlainDesign) → Spelled bytes d → Spelled bytes e → d ≡ e }
{}
