ghost use Rattle.std.specs.Prelude.{◌≡◌, ◌⊎◌, IfOk, IfErr, Some, None, Err};
ghost use Rattle.agm_net.specs.View.{plain_of};
ghost use Rattle.serde_json.specs.View.{view};
ghost use Rattle.json_values.specs.Json.{json_of};
ghost use Rattle.probe_lists.specs.Answer.{Answers, judged, probes_of};
ghost use Rattle.probe_lists.specs.Asked.{first_fault as first_asked};
ghost use Rattle.probe_lists.specs.declared.fault.ProbeFault.TheVariants as fault;

use crate::checks::{first_fault, table_of};
use crate::probes::probes_of as found;
use crate::texts::{ListText, read_texts};
use crate::{ProbeCause, ProbeFault};
use agm_net::Net;
use json_values::{JsonFault, json_value};
use probe_cones::Probes;
use serde_json::Value;
use std::alloc::Global;

// The fault of a cause without a place.
fn bad(cause: ProbeCause) -> ProbeFault
    ensures { result ≡ fault.Bad cause 0 }
{
    ProbeFault::Bad { cause, index: 0 }
}

// The probes of a text, or what is wrong with them.
fn judge(alloc: Global, net: &Net, order: u32, text: ListText) -> Result<Probes, ProbeFault>
    ensures { (result ≡ Err fault.Memory) ⊎ (result ≡ judged (first_asked net.now.wires order text) (probes_of net.now.wires text)) }
{
    let wires = table_of(alloc, net.wires.as_slice())?;
    match first_fault(&wires, order as usize, &text) {
        Some(fault) => Err(fault),
        None => Ok(found(alloc, &wires, text)?),
    }
}

// The probes of a JSON value.
fn probes_in(alloc: Global, net: &Net, order: u32, value: &Value) -> Result<Probes, ProbeFault>
    ensures { Answers net.now.wires order (Some (view value.now)) result }
{
    let read = read_texts(alloc, value)?;
    match read {
        Some(text) => judge(alloc, net, order, text),
        None => Err(bad(ProbeCause::Shape)),
    }
}

/// Reads probes of a net and share indices: `{"indices":[0],"probes":[{"cycle":1,"wire":"agm_g0.wx_0_1"}]}`. Wires go by their names, and
/// cycles are counted from 0. Probes and indices are together at most the order.
///
/// Takes near linear time and memory in the number of bytes and of wires.
///
/// # Errors
///
/// The first cause that holds, or `Memory`.
pub fn read_probes(alloc: Global, bytes: &[u8], net: &Net, order: u32) -> Result<Probes, ProbeFault>
    ensures { Answers net.now.wires order (json_of bytes.now) result }
{
    match json_value(alloc, bytes) {
        Ok(value) => probes_in(alloc, net, order, &value),
        Err(JsonFault::NoJson) => Err(bad(ProbeCause::Json)),
        Err(JsonFault::Memory) => Err(ProbeFault::Memory),
    }
}
