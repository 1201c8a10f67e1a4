//! Laws of refusals.

ghost use Rattle.std.specs.Prelude.{◌≡◌, ℕ};
ghost use Rattle.agm_net.specs.Plain.{PlainNet};
ghost use Rattle.agm_net.specs.WellFormed.{WellFormed, IsFirstBad};

/// No number tells why a net is none, so `Net::new` never answers `Bad` for the parts of a net.
pub fn nets_are_not_refused()
    ensures { (net : PlainNet) (w : ℕ) → WellFormed net → IsFirstBad net w → Prim.⊥ }
{}

/// Only one number tells why parts are no net.
pub fn one_number_tells()
    ensures { (net : PlainNet) (v w : ℕ) → IsFirstBad net v → IsFirstBad net w → v ≡ w }
{}
