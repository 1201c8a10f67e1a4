ghost use Rattle.std.specs.Prelude.{◌≡◌, ◌+◌, ◌++◌, ◌∷◌, [], map, IfOk};
ghost use Rattle.std.specs.List.{range_with_len};
ghost use Rattle.verilog_reader.specs.Plain.{PlainModule};
ghost use Rattle.form_bits.specs.Forms as forms;
ghost use Rattle.module_outlines.specs.View.{wide_view, Outlines};
ghost use Rattle.net_binding.specs.Bound.{ports_from};
ghost use Rattle.net_binding.specs.Ports.{port_at, ports_by};

use agm_bits::{List, Memory, Name};
use agm_net::{Port, Range, Way};
use module_outlines::{Outline, Wide};
use std::alloc::Global;

// How many bits a name with a range has, or one without.
fn range_width(range: Option<Range>) -> usize
    ensures { result ≡ forms.range_width range }
{
    match range {
        None => 1,
        Some(r) => r.msb.abs_diff(r.lsb) as usize + 1,
    }
}

// So many numbers in a row.
fn numbers(alloc: Global, start: usize, width: usize) -> Result<List<usize>, Memory>
    ensures { IfOk result (λ ks. ks ≡ range_with_len start width) }
{
    let Some(end) = start.checked_add(width) else {
        return Err(Memory);
    };
    let mut list = List::new(alloc);
    for k in start..end {
        list.push(k)?;
    }
    Ok(list)
}

// Ports, whose bits are the wires below a number.
#[derive(Drop)]
struct PortList {
    ports: List<Port>,
    first: usize,
}

// Adds a port.
fn with_port(alloc: Global, list: PortList, wide: &Wide, way: Way) -> Result<PortList, Memory>
    ensures { IfOk result (λ p. (p.ports ≡ list.ports ++ port_at list.first (wide_view wide.now) way ∷ []) × (p.first ≡ list.first + forms.range_width wide.now.range)) }
{
    let width = range_width(wide.range);
    let Some(first) = list.first.checked_add(width) else {
        return Err(Memory);
    };
    let name = Name::from_slice(alloc, wide.name.as_slice())?;
    let bits = numbers(alloc, list.first, width)?;
    let port = Port {
        name,
        way,
        range: wide.range,
        bits,
    };
    let mut ports = list.ports;
    ports.push(port)?;
    Ok(PortList { ports, first })
}

// The ports of these names with these ways.
fn listed(alloc: Global, wides: &[Wide], ways: &[Way]) -> Result<List<Port>, Memory>
    ensures { IfOk result (λ ps. ps ≡ ports_by 0 (map wide_view wides.now) ways.now) }
{
    let mut so_far = PortList {
        ports: List::new(alloc),
        first: 0,
    };
    for i in 0..ways.len() {
        if i >= wides.len() {
            return Ok(so_far.ports);
        }
        so_far = with_port(alloc, so_far, &wides[i], ways[i])?;
    }
    Ok(so_far.ports)
}

/// The ports of the top, whose bits are the first wires.
pub(crate) fn ports_of(alloc: Global, outline: &Outline) -> Result<List<Port>, Memory>
    ensures { IfOk result (λ ps. (m : PlainModule) → Outlines m outline.now → ps ≡ ports_from m 0 m.ports) }
{
    listed(alloc, outline.wides.as_slice(), outline.ways.as_slice())
}
