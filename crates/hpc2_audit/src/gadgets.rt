//! Which gadgets there are, and whether they are whole.

ghost use Rattle.std.specs.Prelude.{◌≡◌, ◌≤◌, ◌<◌, ◌+◌, ◌^◌, ◌↔◌, ◌++◌, ℕ, All, IfOk, IsTrue, OnOk, Some, codes, length, nat_eq};
ghost use Rattle.agm_net.specs.Label.{gadget_name, pair_number as pair_number_of, part as a_part};
ghost use Rattle.agm_net.specs.Network.{HasGadget, HasPart, IsPastGap, IsWhole};
ghost use Rattle.agm_net.specs.View.{plain_of};
ghost use Rattle.hpc2_audit.specs.Gadgets as spec;
ghost use Rattle.hpc2_audit.specs.Kinds as kinds;
ghost use Rattle.hpc2_audit.specs.Parts.{HasIndices};
ghost use Rattle.hpc2_audit.specs.Rules.{KeepsNumber, KeepsWhole};
ghost use Rattle.hpc2_audit.specs.Sheet.{IsSheet};

use crate::kinds::{KINDS, Shape, has_indices, shape_of, word_of};
use crate::reads::{part_said, said_at};
use crate::sheet::Sheet;
use crate::spelled::Spelled;
use agm_bits::{Memory, Name};
use agm_net::{Net, PartKind};
use indexmap::IndexSet;
use std::alloc::Global;

// A number behind which no gadget's number is.
const MOST: usize = 4_294_967_296;

// Adds the numbers of a part's name in their shape.
fn add_shaped(
    alloc: Global,
    name: &mut Name,
    shape: Shape,
    i: usize,
    j: usize,
) -> Result<(), Memory>
    ensures { OnOk result (name.new ≡ name.old ++ kinds.shaped shape i j) }
{
    match shape {
        Shape::Bare => Ok(()),
        Shape::Bracket => name.extend(format!(in alloc; "[{i}]")?.as_bytes()),
        Shape::Single => name.extend(format!(in alloc; "_{i}")?.as_bytes()),
        Shape::Double => name.extend(format!(in alloc; "_{i}_{j}")?.as_bytes()),
    }
}

// The name of a wire of a gadget with letters and numbers in a shape.
fn name_in(
    alloc: Global,
    gadget: usize,
    letters: &[u8],
    shape: Shape,
    i: usize,
    j: usize,
) -> Result<Name, Memory>
    ensures { IfOk result (λ n. n ≡ gadget_name gadget (letters.now ++ kinds.shaped shape i j)) }
{
    let front = format!(in alloc; "agm_g{gadget}.")?;
    let mut name = Name::from_slice(alloc, front.as_bytes())?;
    name.extend(letters)?;
    add_shaped(alloc, &mut name, shape, i, j)?;
    Ok(name)
}

// The number of a pair of indices up to an order: those with lower ones come first.
fn pair_number(order: u32, i: usize, j: usize) -> usize
    requires size { order < 16 }
    requires pair { (i < j) × (j ≤ order) }
    ensures { result ≡ pair_number_of (order + 1) i j }
{
    let mut before = 0;
    for lower in 0..i {
        before += order as usize - lower;
    }
    before + (j - i - 1)
}

// The first number in the name of a part.
fn first_number(order: u32, kind: PartKind, i: usize, j: usize) -> usize
    requires size { order < 16 }
    requires indices { HasIndices order kind i j }
    ensures { result ≡ spec.first_number order kind i j }
{
    match kind {
        PartKind::R => pair_number(order, i, j),
        _ => i,
    }
}

// Whether a part of a gadget is there.
fn has_part(
    alloc: Global,
    net: &Net,
    sheet: &Sheet,
    gadget: usize,
    kind: PartKind,
    i: usize,
    j: usize,
) -> Result<bool, Memory>
    requires sheet { IsSheet (plain_of net.now) sheet.now }
    requires gadget { gadget < 2 ^ 32 }
    requires indices { HasIndices sheet.now.order kind i j }
    ensures { IfOk result (λ b. IsTrue b ↔ HasPart (plain_of net.now) sheet.now.order (a_part gadget kind i j)) }
{
    let _ = net.wires.len();
    let first = first_number(sheet.order, kind, i, j);
    let name = name_in(alloc, gadget, word_of(kind), shape_of(kind), first, j)?;
    Ok(sheet.names.find(name.as_slice()).is_some())
}

// Whether the parts of a kind with a first index are there.
fn has_row(
    alloc: Global,
    net: &Net,
    sheet: &Sheet,
    gadget: usize,
    kind: PartKind,
    i: usize,
) -> Result<bool, Memory>
    requires sheet { IsSheet (plain_of net.now) sheet.now }
    requires gadget { gadget < 2 ^ 32 }
    ensures { IfOk result (λ b. IsTrue b ↔ spec.HasRow (plain_of net.now) sheet.now.order gadget kind i) }
{
    for j in 0..2 * sheet.order as usize + 1 {
        if has_indices(sheet.order, kind, i, j) {
            if !has_part(alloc, net, sheet, gadget, kind, i, j)? {
                return Ok(false);
            }
        }
    }
    Ok(true)
}

// Whether the parts of a kind are there.
fn has_kind(
    alloc: Global,
    net: &Net,
    sheet: &Sheet,
    gadget: usize,
    kind: PartKind,
) -> Result<bool, Memory>
    requires sheet { IsSheet (plain_of net.now) sheet.now }
    requires gadget { gadget < 2 ^ 32 }
    ensures { IfOk result (λ b. IsTrue b ↔ spec.HasKind (plain_of net.now) sheet.now.order gadget kind) }
{
    for i in 0..sheet.order as usize + 1 {
        if !has_row(alloc, net, sheet, gadget, kind, i)? {
            return Ok(false);
        }
    }
    Ok(true)
}

// Whether the parts of these kinds are there.
fn has_kinds(
    alloc: Global,
    net: &Net,
    sheet: &Sheet,
    gadget: usize,
    kinds: &[PartKind],
) -> Result<bool, Memory>
    requires sheet { IsSheet (plain_of net.now) sheet.now }
    requires gadget { gadget < 2 ^ 32 }
    ensures { IfOk result (λ b. IsTrue b ↔ spec.HasKinds (plain_of net.now) sheet.now.order gadget kinds.now) }
{
    for kind in kinds {
        if !has_kind(alloc, net, sheet, gadget, *kind)? {
            return Ok(false);
        }
    }
    Ok(true)
}

// Whether all parts of a gadget are there.
fn is_whole(alloc: Global, net: &Net, sheet: &Sheet, gadget: usize) -> Result<bool, Memory>
    requires sheet { IsSheet (plain_of net.now) sheet.now }
    requires gadget { gadget < 2 ^ 32 }
    ensures { IfOk result (λ b. IsTrue b ↔ IsWhole (plain_of net.now) sheet.now.order gadget) }
{
    has_kinds(alloc, net, sheet, gadget, KINDS.as_slice())
}

// Whether a gadget is whole, where some are known to be; it is then one of these.
fn becomes_whole(
    alloc: Global,
    net: &Net,
    sheet: &Sheet,
    whole: &mut IndexSet<usize>,
    gadget: usize,
) -> Result<bool, Memory>
    requires sheet { IsSheet (plain_of net.now) sheet.now }
    requires gadget { gadget < 2 ^ 32 }
    requires known { spec.AreWhole (plain_of net.now) sheet.now.order whole.old.keys }
    ensures told { IfOk result (λ b. IsTrue b ↔ IsWhole (plain_of net.now) sheet.now.order gadget) }
    ensures known { OnOk result (spec.AreWhole (plain_of net.now) sheet.now.order whole.new.keys) }
{
    if whole.contains(&gadget) {
        return Ok(true);
    }
    if is_whole(alloc, net, sheet, gadget)? {
        whole.insert(gadget)?;
        Ok(true)
    } else {
        Ok(false)
    }
}

/// Whether the gadget of which a wire is a part is whole, where some are known to be.
pub(crate) fn keeps_whole(
    alloc: Global,
    net: &Net,
    sheet: &Sheet,
    whole: &mut IndexSet<usize>,
    wire: usize,
) -> Result<bool, Memory>
    requires sheet { IsSheet (plain_of net.now) sheet.now }
    requires within { wire < length net.now.wires }
    requires known { spec.AreWhole (plain_of net.now) sheet.now.order whole.old.keys }
    ensures told { IfOk result (λ b. IsTrue b ↔ KeepsWhole (plain_of net.now) sheet.now.order wire) }
    ensures known { OnOk result (spec.AreWhole (plain_of net.now) sheet.now.order whole.new.keys) }
{
    match part_said(said_at(sheet.said.as_slice(), wire)) {
        Some(part) => becomes_whole(alloc, net, sheet, whole, part.gadget),
        None => Ok(true),
    }
}

// The numbers of the gadgets of which wires are parts.
fn gadgets_of(alloc: Global, said: &[Spelled]) -> Result<IndexSet<usize>, Memory>
    ensures { IfOk result (λ s. spec.AreGadgets said.now s.keys) }
{
    let mut gadgets = IndexSet::new(alloc);
    for own in said {
        if let Some(part) = part_said(*own) {
            gadgets.insert(part.gadget)?;
        }
    }
    Ok(gadgets)
}

// The first number that is none of these, among those below 2^32.
fn first_missing(gadgets: &IndexSet<usize>) -> usize
    ensures { spec.IsFirstMissing gadgets.now.keys result }
{
    for gadget in 0..MOST {
        if !gadgets.contains(&gadget) {
            return gadget;
        }
    }
    MOST
}

// The lowest of these gadgets above a number.
fn lowest_above(said: &[Spelled], number: usize) -> Option<usize>
    ensures { spec.IsLowestAbove said.now number result }
{
    let mut lowest = None;
    for own in said {
        if let Some(part) = part_said(*own) {
            lowest = lower(lowest, number, part.gadget);
        }
    }
    lowest
}

// The lower of two numbers, of which the second counts where it is above a third.
fn lower(lowest: Option<usize>, number: usize, gadget: usize) -> Option<usize>
    ensures { result ≡ spec.lower lowest number gadget }
{
    if gadget <= number {
        return lowest;
    }
    match lowest {
        Some(least) => Some(least.min(gadget)),
        None => Some(gadget),
    }
}

/// How gadgets are numbered: how many numbers come before the first that is none's, and the lowest number behind that.
#[derive(Clone, Copy, Debug, PartialEq, Eq)]
pub(crate) struct Numbering {
    pub(crate) count: usize,
    pub(crate) behind_gap: Option<usize>,
}

/// How the gadgets of a net are numbered.
pub(crate) fn numbering_of(alloc: Global, net: &Net, sheet: &Sheet) -> Result<Numbering, Memory>
    requires { IsSheet (plain_of net.now) sheet.now }
    ensures { IfOk result (λ n. spec.IsNumbering (plain_of net.now) sheet.now.order n.count n.behind_gap) }
{
    let _ = net.wires.len();
    let said = sheet.said.as_slice();
    let gadgets = gadgets_of(alloc, said)?;
    let count = first_missing(&gadgets);
    let behind_gap = lowest_above(said, count);
    Ok(Numbering { count, behind_gap })
}

// Whether a number is this one.
fn is_number(number: Option<usize>, gadget: usize) -> bool
    ensures { IsTrue result ↔ (number ≡ Some gadget) }
{
    match number {
        Some(own) => own == gadget,
        None => false,
    }
}

/// Whether the gadget of which a wire is a part isn't the first behind a gap.
pub(crate) fn keeps_number(net: &Net, sheet: &Sheet, numbering: Numbering, wire: usize) -> bool
    requires sheet { IsSheet (plain_of net.now) sheet.now }
    requires within { wire < length net.now.wires }
    requires numbering { spec.IsNumbering (plain_of net.now) sheet.now.order numbering.count numbering.behind_gap }
    ensures { IsTrue result ↔ KeepsNumber (plain_of net.now) sheet.now.order wire }
{
    let _ = net.wires.len();
    match part_said(said_at(sheet.said.as_slice(), wire)) {
        Some(part) => !is_number(numbering.behind_gap, part.gadget),
        None => true,
    }
}
