//! What the twin changes in a cycle.

ghost use Rattle.std.specs.Prelude.{◌≡◌, ◌<◌, ◌+◌, ◌-◌, ◌&&◌, IfOk, length};
ghost use Rattle.std.specs.List.{list_any};
ghost use Rattle.agm_net.specs.Trace as trace;
ghost use Rattle.twin_tape.specs.Changes as spec;
ghost use Rattle.twin_tape.specs.Permitted.{has};
ghost use Rattle.twin_tape.specs.Twin as twin;

use crate::indices::holds;
use crate::pairs::{Pair, Side};
use crate::plan::{Mark, Plan};
use agm_bits::{BitRow, List, Memory};
use agm_net::{Label, Part, PartKind};
use probe_cones::bit_at;
use std::alloc::Global;

// Whether parts of this kind store the masked factor, or are its product.
fn is_crossing_kind(kind: PartKind) -> bool
    ensures { result ≡ twin.is_crossing_kind kind }
{
    match kind {
        PartKind::V | PartKind::Wx => true,
        _ => false,
    }
}

// Whether a part is of a gadget and has these indices.
fn has_indices(part: Part, gadget: usize, home: usize, away: usize) -> bool
    ensures { result ≡ spec.has_indices part gadget home away }
{
    part.gadget == gadget && (part.i == home && part.j == away)
}

// Whether a wire of this label stores the masked factor of a gadget's two indices, or is its product.
fn is_crossing(gadget: usize, home: usize, away: usize, label: Label) -> bool
    ensures { result ≡ twin.is_crossing gadget home away label }
{
    match label {
        Label::Inner { part } => {
            is_crossing_kind(part.kind) && has_indices(part, gadget, home, away)
        }
        Label::Clock | Label::Public | Label::Random { .. } | Label::Share { .. } => false,
    }
}

// Whether a probe in a cycle is of such a wire.
fn is_crossed(mark: Mark, cycle: usize, gadget: usize, home: usize, away: usize) -> bool
    ensures { result ≡ spec.is_crossed cycle gadget home away mark }
{
    mark.cycle == cycle && is_crossing(gadget, home, away, mark.label)
}

// Whether one of some probes is so.
fn is_any_crossed(marks: &[Mark], cycle: usize, gadget: usize, home: usize, away: usize) -> bool
    ensures { result ≡ list_any (spec.is_crossed cycle gadget home away) marks.now }
{
    for mark in marks {
        if is_crossed(*mark, cycle, gadget, home, away) {
            return true;
        }
    }
    false
}

// Whether an index is known at a stage.
fn knows(stages: &[List<usize>], stage: usize, index: usize) -> bool
    requires { stage < length stages.now }
    ensures { result ≡ has (spec.stage_at stages.now stage) index }
{
    holds(stages[stage].as_slice(), index)
}

// The bit of a wire in the cycle behind one, where there is such a cycle.
fn bit_behind(table: &[BitRow], cycle: usize, wire: usize) -> bool
    requires { cycle < length table.now }
    ensures { result ≡ trace.bit_at table.now (cycle + 1) wire }
{
    cycle + 1 < table.len() && bit_at(&table[cycle + 1], wire)
}

// What is changed by what the index that is to be the same has in the next cycle, if it is to be the same then, and else by a probe.
fn half(next: bool, last: bool, crossed: bool, ahead: bool, differs: bool) -> bool
    ensures { result ≡ spec.half_by next last crossed ahead differs }
{
    if next {
        !last && (ahead && differs)
    } else {
        crossed && differs
    }
}

// What is changed at a pair in a cycle where one of its indices is to be the same, and the other is not.
fn half_of(
    plan: &Plan,
    table: &[BitRow],
    other: &BitRow,
    cycle: usize,
    gadget: usize,
    home: Side,
    away: Side,
) -> bool
    requires cycle { cycle < plan.now.cycles }
    requires stages { length plan.now.stages ≡ plan.now.cycles + 1 }
    requires table { length table.now ≡ plan.now.cycles }
    ensures { result ≡ spec.half_of plan.now table.now other.now cycle gadget home away }
{
    half(
        knows(plan.stages.as_slice(), plan.cycles - cycle - 1, home.index),
        cycle + 1 == plan.cycles,
        is_any_crossed(
            plan.marks.as_slice(),
            cycle + 1,
            gadget,
            home.index,
            away.index,
        ),
        bit_behind(table, cycle, home.first),
        bit_at(&table[cycle], away.second) != bit_at(other, away.second),
    )
}

// What is changed at a pair in a cycle.
fn change_of(plan: &Plan, table: &[BitRow], other: &BitRow, cycle: usize, pair: Pair) -> bool
    requires cycle { cycle < plan.now.cycles }
    requires stages { length plan.now.stages ≡ plan.now.cycles + 1 }
    requires table { length table.now ≡ plan.now.cycles }
    ensures { result ≡ spec.change_of plan.now table.now other.now cycle pair }
{
    let low = knows(plan.stages.as_slice(), plan.cycles - cycle, pair.low.index);
    let high = knows(plan.stages.as_slice(), plan.cycles - cycle, pair.high.index);
    if low == high {
        return false;
    }
    if low {
        half_of(plan, table, other, cycle, pair.gadget, pair.low, pair.high)
    } else {
        half_of(plan, table, other, cycle, pair.gadget, pair.high, pair.low)
    }
}

/// A row of a twin, from that of the random tape: by the table of the first run, and the bits of the second in the cycle.
pub(crate) fn row_of(
    alloc: Global,
    plan: &Plan,
    pairs: &[Pair],
    table: &[BitRow],
    other: &BitRow,
    cycle: usize,
    random: &BitRow,
) -> Result<BitRow, Memory>
    requires cycle { cycle < plan.now.cycles }
    requires stages { length plan.now.stages ≡ plan.now.cycles + 1 }
    requires table { length table.now ≡ plan.now.cycles }
    ensures { IfOk result (λ row. row ≡ spec.changed_row plan.now table.now other.now cycle pairs.now random.now) }
{
    let mut row = BitRow::new(alloc);
    for (k, pair) in pairs.iter().enumerate() {
        row.push(bit_at(random, k) != change_of(plan, table, other, cycle, *pair))?;
    }
    Ok(row)
}
