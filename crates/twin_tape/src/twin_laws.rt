//! Laws of twins: of an HPC2 network with its labels, probes in its cycles, and inputs for as many.

ghost use Rattle.std.specs.Prelude.{◌≡◌, ℕ, List, length};
ghost use Rattle.agm_net.specs.Network.{Hpc2};
ghost use Rattle.agm_net.specs.Plain.{PlainNet};
ghost use Rattle.agm_net.specs.Trace.{Row};
ghost use Rattle.agm_net.specs.WellFormed.{WellFormed};
ghost use Rattle.agm_net.specs.declared.label.Label.{Label};
ghost use Rattle.probe_cones.specs.Cone.{observed};
ghost use Rattle.probe_cones.specs.declared.probe.Probe.{Probe};
ghost use Rattle.twin_tape.specs.Permitted.{AreLabels, permitted, sights};
ghost use Rattle.twin_tape.specs.Security.{Agree, AreProbes};
ghost use Rattle.probe_cones.specs.Inputs.{bit_with, random_width, roles};
ghost use Rattle.twin_tape.specs.Tapes.{IsTape};
ghost use Rattle.twin_tape.specs.Twin.{IsTwin};

/// Each random tape has a twin.
pub fn twins_exist()
    ensures { (net : PlainNet) (d : ℕ) → WellFormed net → Hpc2 net d → (label : ℕ → Label) → AreLabels net d label →
        (T : ℕ) (probes : List Probe) (A : List ℕ) → AreProbes net T probes → (power : Row) (first second random : List Row) → IsTape (random_width net) T random →
        (twin : List Row) × IsTape (random_width net) T twin × IsTwin net d label probes A T power first second random twin }
{}

/// It has no other.
pub fn one_twin()
    ensures { (net : PlainNet) (d : ℕ) → WellFormed net → Hpc2 net d → (label : ℕ → Label) → AreLabels net d label →
        (T : ℕ) (probes : List Probe) (A : List ℕ) → AreProbes net T probes → (power : Row) (first second random twin other : List Row) →
        IsTape (random_width net) T random → IsTape (random_width net) T twin → IsTape (random_width net) T other →
        IsTwin net d label probes A T power first second random twin → IsTwin net d label probes A T power first second random other → twin ≡ other }
{}

/// Where the inputs agree on the permitted indices, the second ones with the twin give the observation of the first with the tape.
pub fn twins_are_seen_alike()
    ensures { (net : PlainNet) (d : ℕ) → WellFormed net → Hpc2 net d → (label : ℕ → Label) → AreLabels net d label →
        (T : ℕ) (probes : List Probe) (A : List ℕ) → AreProbes net T probes → (power : Row) (first second random twin : List Row) →
        IsTape (length (roles net)) T first → Agree net (permitted (sights label probes) A T) first second →
        IsTape (random_width net) T random → IsTape (random_width net) T twin → IsTwin net d label probes A T power first second random twin →
        observed net probes A T (bit_with net power first random) ≡ observed net probes A T (bit_with net power second twin) }
{}

/// And with the inputs exchanged the tape is the twin of its twin.
pub fn twins_lead_back()
    ensures { (net : PlainNet) (d : ℕ) → WellFormed net → Hpc2 net d → (label : ℕ → Label) → AreLabels net d label →
        (T : ℕ) (probes : List Probe) (A : List ℕ) → AreProbes net T probes → (power : Row) (first second random twin : List Row) →
        IsTape (length (roles net)) T first → Agree net (permitted (sights label probes) A T) first second →
        IsTwin net d label probes A T power first second random twin → IsTwin net d label probes A T power second first twin random }
{}
