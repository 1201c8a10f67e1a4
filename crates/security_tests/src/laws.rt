//! Facts that the definitions compute to.

ghost use Rattle.std.specs.Prelude.{◌≡◌, ◌∷◌, ℕ, Bool, true, false, List, [], map, replicate};
ghost use Rattle.probe_cones.specs.Cone.{cone};
ghost use Rattle.security_tests.specs.Nets.{adds_to, always, joined_net, masked_net, probe, share_net, shares, stored_net};
ghost use Rattle.twin_tape.specs.Security.{Blind, Pini, TellsSharings, pairs, seen};
ghost use Rattle.twin_tape.specs.Tapes.{tapes};

use twin_tape::{isolation_blinds, twins_isolate};

/// A probe of a register's output sees that bit alone; one of an equation sees all inputs behind it.
pub fn cones_are_seen()
    ensures { (cone stored_net 4 ≡ 4 ∷ []) × (cone joined_net 4 ≡ 1 ∷ 2 ∷ 3 ∷ []) }
{}

/// A share with a fresh random bit added, once it is stored, has each value equally often: in two of four random tapes of two rows,
/// whatever the shares are.
pub fn masked_counts()
    ensures { (map (λ inputs. seen stored_net 2 (false ∷ []) inputs (probe 4 1 ∷ []) [] (false ∷ [])) (tapes 2 2) ≡ replicate 16 2)
        × (map (λ inputs. seen stored_net 2 (false ∷ []) inputs (probe 4 1 ∷ []) [] (true ∷ [])) (tapes 2 2) ≡ replicate 16 2) }
{}

/// Through glitches a probe of the one equation sees both shares: the same observation comes once for one input, and never for another.
pub fn a_glitch_tells()
    ensures { (seen joined_net 1 [] ((false ∷ false ∷ []) ∷ []) (probe 4 0 ∷ []) [] (false ∷ false ∷ false ∷ []) ≡ 1)
        × (seen joined_net 1 [] ((false ∷ true ∷ []) ∷ []) (probe 4 0 ∷ []) [] (false ∷ false ∷ false ∷ []) ≡ 0) }
{}

/// So that net doesn't isolate one probe.
pub fn one_equation_is_not_isolated()
    ensures { Pini joined_net 1 → ⊥ }
{}

/// One wire of one share isolates probes, at every order.
pub fn one_share_is_isolated()
    ensures { (d : ℕ) → Pini share_net d }
{}

/// The tests by the sum of both shares tell the sharings of 0 and of 1.
pub fn sums_tell_sharings()
    ensures { (v : Bool) → TellsSharings joined_net 1 1 (shares false false) (always v) (adds_to v) }
{}

/// A probe of the one equation gives an observation for one sharing of 0 and one of two random tapes, and never for one of 1.
pub fn a_glitch_tells_the_secret()
    ensures { (pairs joined_net 1 [] (adds_to false) (probe 4 0 ∷ []) (false ∷ false ∷ false ∷ []) ≡ 1)
        × (pairs joined_net 1 [] (adds_to true) (probe 4 0 ∷ []) (false ∷ false ∷ false ∷ []) ≡ 0) }
{}

/// So that net doesn't hide its secret from one probe.
pub fn one_equation_is_not_blind()
    ensures { Blind joined_net 1 → ⊥ }
{}

/// x and a random bit, added in two steps with a register behind each, isolate one probe: what a register holds looks random.
pub fn a_masked_sum_is_isolated()
    ensures { Pini masked_net 1 }
{
    twins_isolate();
}

/// So that net hides its secret from one probe.
pub fn a_masked_sum_is_blind()
    ensures { Blind masked_net 1 }
{
    a_masked_sum_is_isolated();
    isolation_blinds();
}

/// But not from two probes, one of each share.
pub fn two_probes_tell_the_secret()
    ensures { Blind masked_net 2 → ⊥ }
{}
