//! What is asked of a list of probes.

ghost use Rattle.std.specs.Prelude.{◌≡◌, ◌≤◌, ◌<◌, ◌||◌, ◌==◌, nat_lt, take, length, IfOk};
ghost use Rattle.std.specs.List.{list_any};
ghost use Rattle.agm_net.specs.WellFormed.{Differ};
ghost use Rattle.probe_lists.specs.Asked as spec;

use crate::texts::{ListText, ProbeText};
use crate::{ProbeCause, ProbeFault};
use agm_bits::{Memory, Name};
use name_table::Names;
use std::alloc::Global;

// Cycles are below this one.
const CYCLES: usize = 1 << 20;

/// The table of different names.
pub(crate) fn table_of(alloc: Global, names: &[Name]) -> Result<Names, Memory>
    requires { Differ names.now }
    ensures { IfOk result (λ table. table ≡ names.now) }
{
    let mut table = Names::new(alloc);
    for name in names {
        table.add(name.as_slice())?;
    }
    Ok(table)
}

// Whether a name is in a table.
fn is_wire(wires: &Names, name: &[u8]) -> bool
    ensures { result ≡ spec.is_wire wires.now name.now }
{
    wires.find(name).is_some()
}

// What is wrong with a probe.
fn probe_fault(wires: &Names, place: usize, text: &ProbeText) -> Option<ProbeFault>
    ensures { result ≡ spec.probe_fault wires.now (place, text.now) }
{
    if !is_wire(wires, text.wire.as_slice()) {
        return Some(ProbeFault::Bad {
            cause: ProbeCause::Wire,
            index: place,
        });
    }
    if text.cycle < CYCLES {
        return None;
    }
    Some(ProbeFault::Bad {
        cause: ProbeCause::Cycle,
        index: place,
    })
}

// What is wrong with the first wrong probe.
fn first_bad_probe(wires: &Names, probes: &[ProbeText]) -> Option<ProbeFault>
    ensures { result ≡ spec.first_bad_probe wires.now probes.now }
{
    for (place, probe) in probes.iter().enumerate() {
        let fault = probe_fault(wires, place, probe);
        if fault.is_some() {
            return fault;
        }
    }
    None
}

// Whether an index is above the order or stands among those before.
fn is_bad_index(order: usize, before: &[usize], index: usize) -> bool
    ensures { result ≡ (nat_lt order index || list_any (λ n. n == index) before.now) }
{
    index > order || before.contains(&index)
}

// What is wrong with the first wrong index. Those before it are different and at most the order, so there are few.
fn first_bad_index(order: usize, indices: &[usize]) -> Option<ProbeFault>
    ensures { result ≡ spec.first_bad_index order indices.now }
{
    for (place, index) in indices.iter().enumerate() {
        if is_bad_index(order, &indices[..place], *index) {
            return Some(ProbeFault::Bad {
                cause: ProbeCause::Index,
                index: place,
            });
        }
    }
    None
}

// Whether probes and indices are more than the order.
fn count_fault(order: usize, text: &ListText) -> Option<ProbeFault>
    ensures { result ≡ spec.count_fault order text.now }
{
    let probes = text.probes.len();
    if probes > order || text.indices.len() > order - probes {
        return Some(ProbeFault::Bad {
            cause: ProbeCause::Count,
            index: 0,
        });
    }
    None
}

/// What is wrong first with a list of probes.
pub(crate) fn first_fault(wires: &Names, order: usize, text: &ListText) -> Option<ProbeFault>
    ensures { result ≡ spec.first_fault wires.now order text.now }
{
    let fault = first_bad_probe(wires, text.probes.as_slice());
    if fault.is_some() {
        return fault;
    }
    let fault = first_bad_index(order, text.indices.as_slice());
    if fault.is_some() {
        return fault;
    }
    count_fault(order, text)
}
