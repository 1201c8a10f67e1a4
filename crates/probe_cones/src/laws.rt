//! Laws about the definitions.

ghost use Rattle.std.specs.Prelude.{◌≡◌, ◌<◌, ◌==◌, ◌↔◌, ℕ, IsTrue, List, Some, length};
ghost use Rattle.std.specs.List.{list_any};
ghost use Rattle.agm_net.specs.Loop.{HasNoLoop};
ghost use Rattle.agm_net.specs.Plain.{PlainNet};
ghost use Rattle.agm_net.specs.Run.{driver};
ghost use Rattle.agm_net.specs.WellFormed.{WellFormed};
ghost use Rattle.probe_cones.specs.Cone.{cone, is_source};
ghost use Rattle.probe_cones.specs.Laws.{IsNamed, LeadsTo};
ghost use Rattle.probe_cones.specs.Shares.{share_of};

/// In a net without a loop the cone of a wire has exactly the input bits and register outputs to which a list of steps leads back.
pub fn cones_are_steps()
    ensures { (net : PlainNet) (w v : ℕ) → WellFormed net → HasNoLoop net → w < length net.wires →
        (IsTrue (list_any (λ x. x == v) (cone net w)) ↔ (IsTrue (is_source (driver net v)) × LeadsTo net w v)) }
{}

/// A share index is found in a name exactly where the name is that of a port with that share.
pub fn shares_are_named()
    ensures { (name : List ℕ) (s : ℕ × List ℕ) → (share_of name ≡ Some s) ↔ IsNamed name s }
{}
