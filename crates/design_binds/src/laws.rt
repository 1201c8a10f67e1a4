//! That the design of a net binds to the net.

ghost use Rattle.std.specs.Prelude.{◌≡◌, ◌+◌, ◌<◌, ◌^◌, ◌∷◌, [], length, Ok};
ghost use Rattle.agm_net.specs.Plain.{PlainNet};
ghost use Rattle.agm_net.specs.PlainForm.{IsPlain};
ghost use Rattle.agm_net.specs.Renumbered.{Renumbered};
ghost use Rattle.agm_net.specs.WellFormed.{WellFormed};
ghost use Rattle.design_text.specs.Written.{design_text};
ghost use Rattle.net_binding.specs.Bound.{bound};
ghost use Rattle.net_design.specs.Design.{module_of};
ghost use Rattle.verilog_reader.specs.Grammar.{Spelled};

/// The design of a plain net binds without a library to the net with its wires renumbered.
pub fn design_binds()
    ensures { (net : PlainNet) → WellFormed net → IsPlain net → length net.lines + length net.registers < 2 ^ 64 → (other : PlainNet) × (bound [] (module_of net ∷ []) ≡ Ok other) × Renumbered net other }
{}

/// The text of the design of a plain net spells that design.
pub fn design_is_read()
    ensures { (net : PlainNet) → WellFormed net → IsPlain net → length net.lines + length net.registers < 2 ^ 64 → Spelled (design_text (module_of net ∷ [])) (module_of net ∷ []) }
{}
