//! Laws about the definitions, which proofs above cite.

ghost use Rattle.std.specs.Prelude.{◌≡◌, ◌≤◌, ◌<◌, ◌++◌, ℕ, All, IsTrue, List, length, count_by};
ghost use Rattle.agm_net.specs.Network.{Hpc2};
ghost use Rattle.agm_net.specs.Plain.{PlainNet};
ghost use Rattle.agm_net.specs.Trace.{Row};
ghost use Rattle.agm_net.specs.WellFormed.{WellFormed};
ghost use Rattle.agm_net.specs.declared.label.Label.{Label};
ghost use Rattle.probe_cones.specs.declared.probe.Probe.{Probe};
ghost use Rattle.twin_tape.specs.Allowed.{allowed};
ghost use Rattle.twin_tape.specs.Laws.{SumsStay, BijectedCounts, HasTwins};
ghost use Rattle.twin_tape.specs.Permitted.{AreLabels, has, permitted, sights};
ghost use Rattle.twin_tape.specs.Security.{Agree, AreProbes, Blind, IsWhole, Pini, seen};
ghost use Rattle.probe_cones.specs.Inputs.{bit_roles, roles, random_width, joined, random_of, others_of};
ghost use Rattle.twin_tape.specs.Tapes.{IsTape, tapes, same_tape};

/// Each tape of T rows of R bits is counted once.
pub fn each_tape_once()
    ensures { (R T : ℕ) (tape : List Row) → IsTape R T tape → count_by (same_tape tape) (tapes R T) ≡ 1 }
{}

/// Sets of tapes in bijection have the same count.
pub fn bijected_counts()
    ensures { BijectedCounts }
{}

/// A map of tapes that changes each cycle's bits by bits that depend on earlier cycles alone leaves each sum over all tapes as it is.
pub fn sums_stay()
    ensures { SumsStay }
{}

/// A row of input bits is put together from its random bits and the others.
pub fn split_and_joined()
    ensures { (net : PlainNet) (row : Row) → length row ≡ length (bit_roles net) → joined (bit_roles net) (others_of net row) (random_of net row) ≡ row }
{}

/// And it is taken apart again.
pub fn joined_and_split()
    ensures { (net : PlainNet) (others random : Row) → length others ≡ length (roles net) → length random ≡ random_width net →
        (others_of net (joined (bit_roles net) others random) ≡ others) × (random_of net (joined (bit_roles net) others random) ≡ random) }
{}

/// Where inputs that agree have a causal map of random tapes that keeps the observation, probes isolate.
pub fn twins_isolate()
    ensures { (net : PlainNet) (d : ℕ) → HasTwins net d → Pini net d }
{}

/// Probes that isolate tell nothing of the secrets of a whole net.
pub fn isolation_blinds()
    ensures { (net : PlainNet) (d : ℕ) → Pini net d → IsWhole net d → Blind net d }
{}

/// Every HPC2 network isolates probes, at its order: those of Cassiers, Grégoire, Levi and Standaert, whatever its operands depend on.
pub fn networks_isolate()
    ensures { (net : PlainNet) (d : ℕ) → WellFormed net → Hpc2 net d → Pini net d }
{}

/// Every whole HPC2 network keeps its secrets.
pub fn networks_keep_secrets()
    ensures { (net : PlainNet) (d : ℕ) → WellFormed net → Hpc2 net d → IsWhole net d → Blind net d }
{}

/// Beside the listed indices at most one is permitted for each probe.
pub fn permitted_are_few()
    ensures { (label : ℕ → Label) (probes : List Probe) (A : List ℕ) (T : ℕ) →
        (B : List ℕ) × (permitted (sights label probes) A T ≡ B ++ A) × (length B ≤ length probes) }
{}

/// The permitted indices are those of isolation: in an HPC2 network each observation comes equally often for inputs that agree on them.
pub fn permitted_isolate()
    ensures { (net : PlainNet) (d : ℕ) (label : ℕ → Label) → WellFormed net → Hpc2 net d → AreLabels net d label →
        (T : ℕ) (probes : List Probe) (A : List ℕ) → AreProbes net T probes →
        (power : Row) (first second : List Row) → IsTape (length (roles net)) T first → Agree net (permitted (sights label probes) A T) first second →
        (o : Row) → seen net T power first probes A o ≡ seen net T power second probes A o }
{}

/// And for inputs that agree on a list with all permitted indices, in whichever order it has them.
pub fn allowed_isolate()
    ensures { (net : PlainNet) (d : ℕ) (label : ℕ → Label) → WellFormed net → Hpc2 net d → AreLabels net d label →
        (T : ℕ) (probes : List Probe) (A known : List ℕ) → AreProbes net T probes →
        ((i : ℕ) → IsTrue (has (permitted (sights label probes) A T) i) → IsTrue (has known i)) →
        (power : Row) (first second : List Row) → IsTape (length (roles net)) T first → Agree net known first second →
        (o : Row) → seen net T power first probes A o ≡ seen net T power second probes A o }
{
    permitted_isolate();
}

/// The permitted indices up to the order are all of them, where the listed indices are at most the order.
pub fn allowed_are_all()
    ensures { (net : PlainNet) (d : ℕ) (label : ℕ → Label) → AreLabels net d label → (T : ℕ) (probes : List Probe) (A : List ℕ) →
        All (λ p. p.wire < length net.wires) probes → All (λ i. i ≤ d) A →
        (i : ℕ) → IsTrue (has (permitted (sights label probes) A T) i) → IsTrue (has (allowed d label probes A T) i) }
{}
