//! The lines of probes, and of the indices that they permit.

ghost use Rattle.std.specs.Prelude.{◌≡◌, ◌++◌, ◌<◌, ◌+◌, ℕ, All, IfOk, OnOk, length, map};
ghost use Rattle.std.specs.List.{enumerate_from, flat_map};
ghost use Rattle.agm_net.specs.Loop.{HasNoLoop};
ghost use Rattle.agm_net.specs.View.{plain_of};
ghost use Rattle.probe_cones.specs.Cone.{cone};
ghost use Rattle.probe_text.specs.Text as spec;
ghost use Rattle.twin_tape.specs.Allowed.{label_at};

use agm_bits::{List, Memory, Name};
use agm_net::{Label, Net};
use probe_cones::{Probe, Probes, cones};
use std::alloc::Global;
use twin_tape::allowed;

// ` i` for an index.
fn push_index(alloc: Global, text: &mut Name, index: usize) -> Result<(), Memory>
    ensures { OnOk result (text.new ≡ text.old ++ spec.index_text index) }
{
    let word = format!(in alloc; " {index}")?;
    text.extend(word.as_bytes())
}

// ` i` for each index.
fn push_indices(alloc: Global, text: &mut Name, indices: &[usize]) -> Result<(), Memory>
    ensures { OnOk result (text.new ≡ text.old ++ flat_map spec.index_text indices.now) }
{
    for index in indices {
        push_index(alloc, text, *index)?;
    }
    Ok(())
}

/// Appends the line of the indices that probes permit: `allowed:` and ` i` for each.
///
/// # Errors
///
/// `Memory` where memory runs out.
pub fn push_allowed(alloc: Global, text: &mut Name, indices: &[usize]) -> Result<(), Memory>
    ensures { OnOk result (text.new ≡ text.old ++ spec.allowed_line indices.now) }
{
    text.extend(b"allowed:")?;
    push_indices(alloc, text, indices)?;
    text.extend(b"\n")
}

// ` name` for a wire.
fn push_wire(text: &mut Name, names: &[Name], wire: usize) -> Result<(), Memory>
    requires { wire < length names.now }
    ensures { OnOk result (text.new ≡ text.old ++ spec.wire_text names.now wire) }
{
    text.extend(b" ")?;
    text.extend(names[wire].as_slice())
}

// ` name` for each of some wires.
fn push_wires(text: &mut Name, names: &[Name], wires: &[usize]) -> Result<(), Memory>
    requires { All (λ w. w < length names.now) wires.now }
    ensures { OnOk result (text.new ≡ text.old ++ flat_map (spec.wire_text names.now) wires.now) }
{
    for wire in wires {
        push_wire(text, names, *wire)?;
    }
    Ok(())
}

// `probe n wire cycle t:`.
fn push_head(
    alloc: Global,
    text: &mut Name,
    names: &[Name],
    place: usize,
    probe: Probe,
) -> Result<(), Memory>
    requires { probe.wire < length names.now }
    ensures { OnOk result (text.new ≡ text.old ++ spec.probe_head names.now place probe) }
{
    let before = format!(in alloc; "probe {place}")?;
    text.extend(before.as_bytes())?;
    push_wire(text, names, probe.wire)?;
    let cycle = probe.cycle;
    let behind = format!(in alloc; " cycle {cycle}:")?;
    text.extend(behind.as_bytes())
}

// The line of a probe: its head, and its cone's wires.
fn push_probe(
    alloc: Global,
    text: &mut Name,
    net: &Net,
    place: usize,
    probe: Probe,
    found: &[usize],
) -> Result<(), Memory>
    requires in_range { probe.wire < length net.now.wires }
    requires found { found.now ≡ cone (plain_of net.now) probe.wire }
    ensures { OnOk result (text.new ≡ text.old ++ spec.probe_line (plain_of net.now) (place, probe)) }
{
    push_head(alloc, text, net.wires.as_slice(), place, probe)?;
    push_wires(text, net.wires.as_slice(), found)?;
    text.extend(b"\n")
}

// The lines of probes, by their cones.
fn push_probes(
    alloc: Global,
    text: &mut Name,
    net: &Net,
    probes: &[Probe],
    found: &[List<usize>],
) -> Result<(), Memory>
    requires in_range { All (λ p. p.wire < length net.now.wires) probes.now }
    requires found { found.now ≡ map (λ p. cone (plain_of net.now) p.wire) probes.now }
    ensures { OnOk result (text.new ≡ text.old ++ flat_map (spec.probe_line (plain_of net.now)) (enumerate_from 0 probes.now)) }
{
    for (place, probe) in probes.iter().enumerate() {
        push_probe(alloc, text, net, place, *probe, found[place].as_slice())?;
    }
    Ok(())
}

// The wires of probes.
fn wires_of(alloc: Global, probes: &[Probe]) -> Result<List<usize>, Memory>
    ensures { IfOk result (λ wires. wires ≡ map (λ p. p.wire) probes.now) }
{
    let mut wires = List::new(alloc);
    for probe in probes {
        wires.push(probe.wire)?;
    }
    Ok(wires)
}

// The cones of probes.
fn cones_of(alloc: Global, net: &Net, probes: &[Probe]) -> Result<List<List<usize>>, Memory>
    requires no_loop { HasNoLoop (plain_of net.now) }
    requires in_range { All (λ p. p.wire < length net.now.wires) probes.now }
    ensures { IfOk result (λ found. found ≡ map (λ p. cone (plain_of net.now) p.wire) probes.now) }
{
    let wires = wires_of(alloc, probes)?;
    cones(alloc, net, wires.as_slice())
}

/// The text of the cones of probes: for each probe `probe n wire cycle t:`, where n is its place in the list, with ` wire` for each wire
/// of its cone; then `allowed:` with the permitted share indices. `labels` has the label of each wire of the net, which is an HPC2
/// network of this order.
///
/// # Errors
///
/// `Memory` where memory runs out.
pub fn cones_text(
    alloc: Global,
    net: &Net,
    labels: &[Label],
    order: u32,
    asked: &Probes,
) -> Result<Name, Memory>
    requires no_loop { HasNoLoop (plain_of net.now) }
    requires in_range { All (λ p. p.wire < length net.now.wires) asked.now.probes }
    requires labelled { length labels.now ≡ length net.now.wires }
    requires cycles { All (λ p. p.cycle + 1 < usize.MAX) asked.now.probes }
    ensures { IfOk result (spec.IsConesText (plain_of net.now) order (label_at labels.now) asked.now) }
{
    let cones = cones_of(alloc, net, asked.probes.as_slice())?;
    let permitted = allowed(alloc, labels, order, asked)?;
    let mut text = Name::new(alloc);
    push_probes(
        alloc,
        &mut text,
        net,
        asked.probes.as_slice(),
        cones.as_slice(),
    )?;
    push_allowed(alloc, &mut text, permitted.as_slice())?;
    Ok(text)
}
