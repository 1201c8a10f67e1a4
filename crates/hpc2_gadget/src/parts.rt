//! The parts of a gadget.

ghost use Rattle.std.specs.Prelude.{◌≡◌, ◌≢◌, ◌<◌, ◌≤◌, ◌+◌, ◌-◌, ◌*◌, length, ℕ, IfOk, OnOk, IsTrue};
ghost use Rattle.agm_net.specs.Formula.{value, xor};
ghost use Rattle.agm_net.specs.Label.{part_name as part_name_of};
ghost use Rattle.agm_net.specs.Small.{IsCell};
ghost use Rattle.share_wiring.specs.Gates.{gate_formula, gate_below};
ghost use Rattle.share_wiring.specs.Wiring.{MayBeShare, names};
ghost use Rattle.share_wiring.specs.Adds.{Extends, AddsFact, random_bits};
ghost use Rattle.share_wiring.specs.Networks.{IsBy};
ghost use Rattle.agm_net.specs.Label.{is_share_kind};
ghost use Rattle.hpc2_gadget.specs.Order.{rank, cell, turn, place_of as place_of_spec, IsIndex, Below};
ghost use Rattle.hpc2_gadget.specs.Grown.{Grown};
ghost use Rattle.hpc2_gadget.specs.Product.{SquareAt, HalvesAt, CrossAt, random_bit};
ghost use Rattle.hpc2_gadget.specs.Sound.{At, Has, IsSum, Sound, AddsPart, AfterOdd, IsStored, Crosses, HasCross, IsSide, HasPair};

use crate::names::{Place, part_name};
use agm_bits::Memory;
use agm_net::PartKind;
use share_wiring::{Builder, Gate, Source};

/// What the masked halves of a product read: the share of the first factor and its inverse, the share of the second, and the random
/// bit, now and stored.
#[derive(Clone, Copy)]
struct Crossing {
    a: usize,
    inverse: usize,
    b: usize,
    random: usize,
    stored: usize,
}

/// A part that is a gate.
pub fn gate(
    builder: &mut Builder,
    place: Place,
    kind: PartKind,
    i: usize,
    j: usize,
    gate: Gate,
) -> Result<usize, Memory>
    requires begun { place.gadget < builder.old.gadgets }
    requires index { IsIndex place.shares kind i j }
    requires below { Below place.shares place.gadget (rank place.shares kind i j) (names builder.old.wires) }
    requires fits { IsTrue (gate_below gate (length builder.old.wires)) }
    requires cell { IsCell (gate_formula gate) }
    ensures grown { OnOk result (Grown place.shares place.gadget (rank place.shares kind i j + 1) 0 builder.old builder.new) }
    ensures part { IfOk result (AddsPart place.shares place.gadget kind i j (Source.Equation gate) builder.old builder.new) }
    ensures within { IfOk result (λ w. w < length builder.new.wires) }
    ensures shared { IfOk result (λ w. IsTrue (is_share_kind kind) → MayBeShare builder.new.wires place.shares i w) }
    ensures value { IfOk result (λ w. AddsFact builder.old builder.new (λ cycles bits. (t : ℕ) → t < cycles → bits t w ≡ value (bits t) (gate_formula gate))) }
{
    let name = part_name(place, kind, i, j)?;
    let expr = gate.expr(place.alloc)?;
    let wire = builder.equate(name.as_slice(), expr)?;
    Ok(wire)
}

/// A part that is a register.
pub fn register(
    builder: &mut Builder,
    place: Place,
    kind: PartKind,
    i: usize,
    j: usize,
    next: usize,
) -> Result<usize, Memory>
    requires begun { place.gadget < builder.old.gadgets }
    requires index { IsIndex place.shares kind i j }
    requires below { Below place.shares place.gadget (rank place.shares kind i j) (names builder.old.wires) }
    requires next { next < length builder.old.wires }
    requires clock { place.clock < length builder.old.wires }
    ensures grown { OnOk result (Grown place.shares place.gadget (rank place.shares kind i j + 1) 0 builder.old builder.new) }
    ensures part { IfOk result (AddsPart place.shares place.gadget kind i j (Source.Register next place.clock) builder.old builder.new) }
    ensures within { IfOk result (λ w. w < length builder.new.wires) }
    ensures shared { IfOk result (λ w. IsTrue (is_share_kind kind) → MayBeShare builder.new.wires place.shares i w) }
    ensures value { IfOk result (λ w. AddsFact builder.old builder.new (λ cycles bits. (t : ℕ) → t + 1 < cycles → bits (t + 1) w ≡ bits t next)) }
{
    let name = part_name(place, kind, i, j)?;
    let wire = builder.store(name.as_slice(), next, place.clock)?;
    Ok(wire)
}

// A gate, and the register of its value.
fn stored(
    builder: &mut Builder,
    place: Place,
    kinds: (PartKind, PartKind),
    i: usize,
    j: usize,
    gate_of: Gate,
) -> Result<usize, Memory>
    requires begun { place.gadget < builder.old.gadgets }
    requires clock { place.clock < length builder.old.wires }
    requires first { IsIndex place.shares kinds.0 i j }
    requires second { IsIndex place.shares kinds.1 i j }
    requires next { rank place.shares kinds.1 i j ≡ rank place.shares kinds.0 i j + 1 }
    requires below { Below place.shares place.gadget (rank place.shares kinds.0 i j) (names builder.old.wires) }
    requires fits { IsTrue (gate_below gate_of (length builder.old.wires)) }
    requires cell { IsCell (gate_formula gate_of) }
    ensures grown { OnOk result (Grown place.shares place.gadget (rank place.shares kinds.1 i j + 1) 0 builder.old builder.new) }
    ensures rules { IfOk result (λ w. Sound place.shares place.gadget place.clock builder.old →
        IsStored place.shares place.gadget builder.old kinds.0 kinds.1 i j (Source.Equation gate_of) →
        Sound place.shares place.gadget place.clock builder.new
        × Has place.shares place.gadget builder.new kinds.0 i j
        × At place.shares place.gadget builder.new kinds.1 i j w) }
    ensures within { IfOk result (λ w. w < length builder.new.wires) }
    ensures shared { IfOk result (λ w. IsTrue (is_share_kind kinds.1) → MayBeShare builder.new.wires place.shares i w) }
    ensures value { IfOk result (λ w. AddsFact builder.old builder.new (λ cycles bits. (t : ℕ) → t + 1 < cycles → bits (t + 1) w ≡ value (bits t) (gate_formula gate_of))) }
{
    let now = gate(builder, place, kinds.0, i, j, gate_of)?;
    let later = register(builder, place, kinds.1, i, j, now)?;
    Ok(later)
}

/// The product of the shares of one index.
pub fn square(
    builder: &mut Builder,
    place: Place,
    i: usize,
    a: usize,
    b: usize,
) -> Result<usize, Memory>
    requires begun { place.gadget < builder.old.gadgets }
    requires clock { place.clock < length builder.old.wires }
    requires index { i < place.shares }
    requires below { Below place.shares place.gadget (49 + i * 3) (names builder.old.wires) }
    requires a { a < length builder.old.wires }
    requires b { b < length builder.old.wires }
    ensures grown { OnOk result (Grown place.shares place.gadget (52 + i * 3) 0 builder.old builder.new) }
    ensures rules { IfOk result (λ w. Sound place.shares place.gadget place.clock builder.old →
        At place.shares place.gadget builder.old PartKind.A i 0 a →
        At place.shares place.gadget builder.old PartKind.B i 0 b →
        Sound place.shares place.gadget place.clock builder.new
        × Has place.shares place.gadget builder.new PartKind.Bb i 0
        × Has place.shares place.gadget builder.new PartKind.Mx i 0
        × At place.shares place.gadget builder.new PartKind.M i 0 w) }
    ensures shared { IfOk result (MayBeShare builder.new.wires place.shares i) }
    ensures value { IfOk result (λ w. AddsFact builder.old builder.new (λ cycles bits. SquareAt cycles bits a b w)) }
{
    let before = register(builder, place, PartKind::Bb, i, 0, b)?;
    let product = stored(
        builder,
        place,
        (PartKind::Mx, PartKind::M),
        i,
        0,
        Gate::And(a, before),
    )?;
    Ok(product)
}

// The masked halves of the product of share i of the first factor and share j of the second.
fn halves(
    builder: &mut Builder,
    place: Place,
    i: usize,
    j: usize,
    wires: Crossing,
) -> Result<(usize, usize), Memory>
    requires begun { place.gadget < builder.old.gadgets }
    requires clock { place.clock < length builder.old.wires }
    requires index { (i < place.shares) × (j < place.shares) × (i ≢ j) }
    requires below { Below place.shares place.gadget (cell i j + (2 + turn i j * 6)) (names builder.old.wires) }
    requires a { wires.a < length builder.old.wires }
    requires inverse { wires.inverse < length builder.old.wires }
    requires b { wires.b < length builder.old.wires }
    requires random { wires.random < length builder.old.wires }
    requires stored { wires.stored < length builder.old.wires }
    ensures grown { OnOk result (Grown place.shares place.gadget (cell i j + (8 + turn i j * 6)) 0 builder.old builder.new) }
    ensures rules { IfOk result (λ z. Sound place.shares place.gadget place.clock builder.old →
        Crosses place.shares place.gadget builder.old i j wires.a wires.inverse wires.b wires.random wires.stored →
        Sound place.shares place.gadget place.clock builder.new × HasCross place.shares place.gadget builder.new i j z.0 z.1) }
    ensures within { IfOk result (λ z. (z.0 < length builder.new.wires) × (z.1 < length builder.new.wires)) }
    ensures value { IfOk result (λ z. AddsFact builder.old builder.new (λ cycles bits. HalvesAt cycles bits wires.a wires.inverse wires.b wires.random wires.stored z.0 z.1)) }
{
    let masked = Gate::Xor(wires.b, wires.random);
    let v = stored(builder, place, (PartKind::Vx, PartKind::V), i, j, masked)?;
    let kept = Gate::And(wires.inverse, wires.stored);
    let u = stored(builder, place, (PartKind::Ux, PartKind::U), i, j, kept)?;
    let crossed = Gate::And(wires.a, v);
    let w = stored(builder, place, (PartKind::Wx, PartKind::W), i, j, crossed)?;
    Ok((u, w))
}

// How many of the other indices of i come before j.
fn place_of(i: usize, j: usize) -> usize
    requires { i ≢ j }
    ensures { result ≡ place_of_spec i j }
{
    if i < j { j - 1 } else { j }
}

// The sum of share i after the second term with share j: the last one is the share of the product.
fn second_sum(
    builder: &mut Builder,
    place: Place,
    i: usize,
    j: usize,
    sum: Gate,
) -> Result<usize, Memory>
    requires begun { place.gadget < builder.old.gadgets }
    requires index { (i < place.shares) × (j < place.shares) × (i ≢ j) }
    requires below { Below place.shares place.gadget (cell i j + (15 + turn i j * 2)) (names builder.old.wires) }
    requires fits { IsTrue (gate_below sum (length builder.old.wires)) }
    requires cell { IsCell (gate_formula sum) }
    ensures grown { OnOk result (Grown place.shares place.gadget (cell i j + (16 + turn i j * 2)) 0 builder.old builder.new) }
    ensures rules { IfOk result (λ w. Sound place.shares place.gadget place.clock builder.old →
        IsBy (place.shares - 1) builder.old.wires (AfterOdd (place.shares - 1) place.gadget i j) (Source.Equation sum) →
        Sound place.shares place.gadget place.clock builder.new
        × IsSum place.shares place.gadget builder.new i (2 * place_of_spec i j + 2) w) }
    ensures shared { IfOk result (MayBeShare builder.new.wires place.shares i) }
    ensures value { IfOk result (λ w. AddsFact builder.old builder.new (λ cycles bits. (t : ℕ) → t < cycles → bits t w ≡ value (bits t) (gate_formula sum))) }
{
    let before = place_of(i, j);
    if before + 2 == place.shares {
        let last = gate(builder, place, PartKind::C, i, 0, sum)?;
        Ok(last)
    } else {
        let next = gate(builder, place, PartKind::S, i, 2 * before + 2, sum)?;
        Ok(next)
    }
}

// The sum of share i with the two terms of share j.
fn two_more(
    builder: &mut Builder,
    place: Place,
    i: usize,
    j: usize,
    sum: usize,
    terms: (usize, usize),
) -> Result<usize, Memory>
    requires begun { place.gadget < builder.old.gadgets }
    requires index { (i < place.shares) × (j < place.shares) × (i ≢ j) }
    requires below { Below place.shares place.gadget (cell i j + (14 + turn i j * 2)) (names builder.old.wires) }
    requires sum { sum < length builder.old.wires }
    requires terms { (terms.0 < length builder.old.wires) × (terms.1 < length builder.old.wires) }
    ensures grown { OnOk result (Grown place.shares place.gadget (cell i j + (16 + turn i j * 2)) 0 builder.old builder.new) }
    ensures rules { IfOk result (λ w. Sound place.shares place.gadget place.clock builder.old →
        IsSum place.shares place.gadget builder.old i (2 * place_of_spec i j) sum →
        At place.shares place.gadget builder.old PartKind.U i j terms.0 →
        At place.shares place.gadget builder.old PartKind.W i j terms.1 →
        Sound place.shares place.gadget place.clock builder.new
        × Has place.shares place.gadget builder.new PartKind.S i (2 * place_of_spec i j + 1)
        × IsSum place.shares place.gadget builder.new i (2 * place_of_spec i j + 2) w) }
    ensures shared { IfOk result (MayBeShare builder.new.wires place.shares i) }
    ensures value { IfOk result (λ w. AddsFact builder.old builder.new (λ cycles bits. (t : ℕ) → t < cycles → bits t w ≡ xor (bits t sum) (xor (bits t terms.0) (bits t terms.1)))) }
{
    let (u, w) = terms;
    let before = place_of(i, j);
    let first = gate(
        builder,
        place,
        PartKind::S,
        i,
        2 * before + 1,
        Gate::Xor(sum, u),
    )?;
    let second = second_sum(builder, place, i, j, Gate::Xor(first, w))?;
    Ok(second)
}

/// The wires of one share: its first factor, that inverted, its second factor and its sum.
#[derive(Clone, Copy)]
pub struct Side {
    pub a: usize,
    pub inverse: usize,
    pub b: usize,
    pub sum: usize,
}

/// The parts of a pair of shares: the two new sums.
pub fn pair(
    builder: &mut Builder,
    place: Place,
    i: usize,
    j: usize,
    x: Side,
    y: Side,
) -> Result<(usize, usize), Memory>
    requires begun { place.gadget < builder.old.gadgets }
    requires clock { place.clock < length builder.old.wires }
    requires index { (i < j) × (j < place.shares) }
    requires below { Below place.shares place.gadget (97 + (j * 320 + i * 20)) (names builder.old.wires) }
    requires random { builder.old.given < length (random_bits builder.old.ports) }
    requires first { (x.a < length builder.old.wires) × (x.inverse < length builder.old.wires) × (x.b < length builder.old.wires) × (x.sum < length builder.old.wires) }
    requires second { (y.a < length builder.old.wires) × (y.inverse < length builder.old.wires) × (y.b < length builder.old.wires) × (y.sum < length builder.old.wires) }
    ensures grown { OnOk result (Grown place.shares place.gadget (117 + (j * 320 + i * 20)) 1 builder.old builder.new) }
    ensures rules { IfOk result (λ z. Sound place.shares place.gadget place.clock builder.old →
        IsSide place.shares place.gadget builder.old i (2 * place_of_spec i j) x.a x.inverse x.b x.sum →
        IsSide place.shares place.gadget builder.old j (2 * place_of_spec j i) y.a y.inverse y.b y.sum →
        Sound place.shares place.gadget place.clock builder.new
        × HasPair place.shares place.gadget builder.new i j
        × IsSum place.shares place.gadget builder.new i (2 * place_of_spec i j + 2) z.0
        × IsSum place.shares place.gadget builder.new j (2 * place_of_spec j i + 2) z.1) }
    ensures low { IfOk result (λ z. MayBeShare builder.new.wires place.shares i z.0) }
    ensures high { IfOk result (λ z. MayBeShare builder.new.wires place.shares j z.1) }
    ensures value { let r = random_bit builder.old.ports builder.old.given in
        IfOk result (λ z. AddsFact builder.old builder.new (λ cycles bits.
        CrossAt cycles bits x.a x.inverse y.b r x.sum z.0
        × CrossAt cycles bits y.a y.inverse x.b r y.sum z.1)) }
{
    let bit = builder.random()?;
    let random = gate(builder, place, PartKind::R, i, j, Gate::Same(bit))?;
    let stored = register(builder, place, PartKind::Rr, i, j, random)?;
    let upper = Crossing {
        a: x.a,
        inverse: x.inverse,
        b: y.b,
        random,
        stored,
    };
    let here = halves(builder, place, i, j, upper)?;
    let lower = Crossing {
        a: y.a,
        inverse: y.inverse,
        b: x.b,
        random,
        stored,
    };
    let there = halves(builder, place, j, i, lower)?;
    let low = two_more(builder, place, i, j, x.sum, here)?;
    let high = two_more(builder, place, j, i, y.sum, there)?;
    Ok((low, high))
}
