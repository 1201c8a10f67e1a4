ghost use Rattle.std.specs.Prelude.{◌≡◌, IfOk, map};
ghost use Rattle.probe_lists.specs.Answer as spec;

use crate::texts::{ListText, ProbeText};
use agm_bits::{List, Memory};
use name_table::Names;
use probe_cones::{Probe, Probes};
use std::alloc::Global;

// The probe of a text, whose wire is there.
fn probe_of(wires: &Names, text: &ProbeText) -> Probe
    ensures { result ≡ spec.probe_of wires.now text.now }
{
    Probe {
        wire: wires.find(text.wire.as_slice()).unwrap_or(0),
        cycle: text.cycle,
    }
}

/// The probes of a text, whose wires are there.
pub(crate) fn probes_of(alloc: Global, wires: &Names, text: ListText) -> Result<Probes, Memory>
    ensures { IfOk result (λ probes. probes ≡ spec.probes_of wires.now text) }
{
    let mut probes = List::new(alloc);
    for probe in text.probes.as_slice() {
        probes.push(probe_of(wires, probe))?;
    }
    let ListText { indices, .. } = text;
    Ok(Probes { probes, indices })
}
