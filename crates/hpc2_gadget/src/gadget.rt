//! The multiplication of two sharings.

ghost use Rattle.std.specs.Prelude.{◌≡◌, ◌<◌, ◌≤◌, ◌+◌, ◌-◌, ◌*◌, ◌/◌, ◌^◌, length, ℕ, IfOk, OnOk, IsTrue};
ghost use Rattle.share_wiring.specs.Wiring.{IsSharing, names, share};
ghost use Rattle.share_wiring.specs.Adds.{Extends, AddsFact, random_bits};
ghost use Rattle.agm_net.specs.Label.{is_share_kind};
ghost use Rattle.hpc2_gadget.specs.Order.{rank, IsIndex, Below};
ghost use Rattle.hpc2_gadget.specs.Product.{SquareAt, SameAt, InverseAt, RowFact, RowsFact};
ghost use Rattle.hpc2_gadget.specs.Product.{Multiplies, SharesAt, random_bit, pair_bit};
ghost use Rattle.agm_net.specs.Network.{recipe, a_share};
ghost use Rattle.share_wiring.specs.Networks.{KeepsNetwork};
ghost use Rattle.hpc2_gadget.specs.Sound.{Sound, AreParts, HasSquares, AreFactors, IsStarted, HasRow, HasRows, IsFull};
ghost use Rattle.hpc2_gadget.specs.Grown.{Grown, Makes, Fills, triangle};
ghost use Rattle.share_wiring.specs.Cells.{AddsCells};

use crate::names::Place;
use crate::parts::{Side, gate, pair, square};
use agm_bits::Memory;
use agm_net::PartKind;
use share_wiring::{Builder, Gate, Sharing};

// Parts of one kind that have the bits of a sharing.
fn copies<const S: usize>(
    builder: &mut Builder,
    place: Place,
    kind: PartKind,
    x: &Sharing<S>,
) -> Result<Sharing<S>, Memory>
    requires begun { place.gadget < builder.old.gadgets }
    requires shares { place.shares ≡ S }
    requires shared { IsTrue (is_share_kind kind) }
    requires order { (i : ℕ) → rank S kind i 0 ≡ rank S kind 0 0 + i }
    requires index { (i : ℕ) → i < S → IsIndex S kind i 0 }
    requires below { Below S place.gadget (rank S kind 0 0) (names builder.old.wires) }
    requires inside { IsSharing builder.old.wires S x.now.shares }
    ensures grown { OnOk result (Grown S place.gadget (rank S kind 0 0 + S) 0 builder.old builder.new) }
    ensures rules { IfOk result (λ z. Sound S place.gadget place.clock builder.old →
        ((i : ℕ) → recipe (S - 1) place.gadget kind i 0 ≡ a_share i) →
        Sound S place.gadget place.clock builder.new × AreParts S place.gadget builder.new kind S z.shares) }
    ensures filled { IfOk result (λ z. Fills builder.old builder.new S S z.shares (λ cycles bits k w. SameAt cycles bits (share x.now.shares k) w)) }
{
    let mut shares = [0usize; S];
    for i in 0..S {
        let wire = gate(builder, place, kind, i, 0, Gate::Same(x.shares[i]))?;
        shares[i] = wire;
    }
    Ok(Sharing { shares })
}

// The inverses of the shares of the first factor.
fn inverses<const S: usize>(
    builder: &mut Builder,
    place: Place,
    x: &Sharing<S>,
) -> Result<Sharing<S>, Memory>
    requires begun { place.gadget < builder.old.gadgets }
    requires shares { place.shares ≡ S }
    requires below { Below S place.gadget 33 (names builder.old.wires) }
    requires inside { IsSharing builder.old.wires S x.now.shares }
    ensures grown { OnOk result (Grown S place.gadget (33 + S) 0 builder.old builder.new) }
    ensures rules { IfOk result (λ z. Sound S place.gadget place.clock builder.old →
        AreParts S place.gadget builder.old PartKind.A S x.now.shares →
        Sound S place.gadget place.clock builder.new × AreParts S place.gadget builder.new PartKind.Na S z.shares) }
    ensures filled { IfOk result (λ z. Fills builder.old builder.new S S z.shares (λ cycles bits k w. InverseAt cycles bits (share x.now.shares k) w)) }
{
    let mut shares = [0usize; S];
    for i in 0..S {
        let wire = gate(builder, place, PartKind::Na, i, 0, Gate::Not(x.shares[i]))?;
        shares[i] = wire;
    }
    Ok(Sharing { shares })
}

// The products of the shares of one index.
fn squares<const S: usize>(
    builder: &mut Builder,
    place: Place,
    a: &Sharing<S>,
    b: &Sharing<S>,
) -> Result<Sharing<S>, Memory>
    requires begun { place.gadget < builder.old.gadgets }
    requires clock { place.clock < length builder.old.wires }
    requires shares { place.shares ≡ S }
    requires below { Below S place.gadget 49 (names builder.old.wires) }
    requires first { IsSharing builder.old.wires S a.now.shares }
    requires second { IsSharing builder.old.wires S b.now.shares }
    ensures grown { OnOk result (Grown S place.gadget (49 + S * 3) 0 builder.old builder.new) }
    ensures rules { IfOk result (λ z. Sound S place.gadget place.clock builder.old →
        AreParts S place.gadget builder.old PartKind.A S a.now.shares →
        AreParts S place.gadget builder.old PartKind.B S b.now.shares →
        Sound S place.gadget place.clock builder.new × AreParts S place.gadget builder.new PartKind.M S z.shares
        × HasSquares S place.gadget builder.new S) }
    ensures filled { IfOk result (λ z. Fills builder.old builder.new S S z.shares (λ cycles bits k w. SquareAt cycles bits (share a.now.shares k) (share b.now.shares k) w)) }
{
    let mut shares = [0usize; S];
    for i in 0..S {
        let wire = square(builder, place, i, a.shares[i], b.shares[i])?;
        shares[i] = wire;
    }
    Ok(Sharing { shares })
}

// Adds the pairs of share j with the lower ones.
fn row<const S: usize>(
    builder: &mut Builder,
    place: Place,
    j: usize,
    a: &Sharing<S>,
    inverse: &Sharing<S>,
    b: &Sharing<S>,
    sums: &Sharing<S>,
) -> Result<Sharing<S>, Memory>
    requires begun { place.gadget < builder.old.gadgets }
    requires clock { place.clock < length builder.old.wires }
    requires shares { place.shares ≡ S }
    requires index { j < S }
    requires below { Below S place.gadget (97 + j * 320) (names builder.old.wires) }
    requires random { builder.old.given + j ≤ length (random_bits builder.old.ports) }
    requires first { IsSharing builder.old.wires S a.now.shares }
    requires inverted { IsSharing builder.old.wires S inverse.now.shares }
    requires second { IsSharing builder.old.wires S b.now.shares }
    requires summed { IsSharing builder.old.wires S sums.now.shares }
    requires full { length sums.now.shares ≡ S }
    ensures grown { OnOk result (Grown S place.gadget (97 + (j * 320 + j * 20)) j builder.old builder.new) }
    ensures rules { IfOk result (λ z. Sound S place.gadget place.clock builder.old →
        AreFactors S place.gadget builder.old a.now.shares inverse.now.shares b.now.shares →
        IsStarted S place.gadget builder.old j sums.now.shares →
        Sound S place.gadget place.clock builder.new × IsStarted S place.gadget builder.new (j + 1) z.shares
        × HasRow S place.gadget builder.new j j) }
    ensures made { IfOk result (λ z. Makes builder.old builder.new S z.shares (λ cycles bits.
        RowFact S j j cycles bits (λ i. random_bit builder.old.ports (builder.old.given + i))
        a.now.shares inverse.now.shares b.now.shares sums.now.shares z.shares)) }
{
    let mut shares = sums.shares;
    for i in 0..j {
        let x = Side {
            a: a.shares[i],
            inverse: inverse.shares[i],
            b: b.shares[i],
            sum: shares[i],
        };
        let y = Side {
            a: a.shares[j],
            inverse: inverse.shares[j],
            b: b.shares[j],
            sum: shares[j],
        };
        let (low, high) = pair(builder, place, i, j, x, y)?;
        shares[i] = low;
        shares[j] = high;
    }
    Ok(Sharing { shares })
}

// Adds the pairs of all shares.
fn rows<const S: usize>(
    builder: &mut Builder,
    place: Place,
    a: &Sharing<S>,
    inverse: &Sharing<S>,
    b: &Sharing<S>,
    sums: &Sharing<S>,
) -> Result<Sharing<S>, Memory>
    requires begun { place.gadget < builder.old.gadgets }
    requires clock { place.clock < length builder.old.wires }
    requires shares { place.shares ≡ S }
    requires below { Below S place.gadget 97 (names builder.old.wires) }
    requires random { builder.old.given + triangle S ≤ length (random_bits builder.old.ports) }
    requires first { IsSharing builder.old.wires S a.now.shares }
    requires inverted { IsSharing builder.old.wires S inverse.now.shares }
    requires second { IsSharing builder.old.wires S b.now.shares }
    requires summed { IsSharing builder.old.wires S sums.now.shares }
    requires full { length sums.now.shares ≡ S }
    ensures grown { OnOk result (Grown S place.gadget (97 + S * 320) (triangle S) builder.old builder.new) }
    ensures rules { OnOk result (Sound S place.gadget place.clock builder.old →
        AreFactors S place.gadget builder.old a.now.shares inverse.now.shares b.now.shares →
        AreParts S place.gadget builder.old PartKind.M S sums.now.shares →
        Sound S place.gadget place.clock builder.new × HasRows S place.gadget builder.new S) }
    ensures made { IfOk result (λ z. Makes builder.old builder.new S z.shares (λ cycles bits.
        RowsFact S S cycles bits (pair_bit builder.old.ports builder.old.given)
        a.now.shares inverse.now.shares b.now.shares sums.now.shares z.shares)) }
{
    let mut all = *sums;
    for j in 0..S {
        all = row(builder, place, j, a, inverse, b, &all)?;
    }
    Ok(all)
}

// The parts from the shares of the factors to those of the product.
fn product<const S: usize>(
    builder: &mut Builder,
    place: Place,
    x: &Sharing<S>,
    y: &Sharing<S>,
) -> Result<Sharing<S>, Memory>
    requires begun { place.gadget < builder.old.gadgets }
    requires clock { place.clock < length builder.old.wires }
    requires shares { place.shares ≡ S }
    requires below { Below S place.gadget 1 (names builder.old.wires) }
    requires random { builder.old.given + triangle S ≤ length (random_bits builder.old.ports) }
    requires first { IsSharing builder.old.wires S x.now.shares }
    requires second { IsSharing builder.old.wires S y.now.shares }
    ensures grown { OnOk result (Grown S place.gadget (97 + S * 320) (triangle S) builder.old builder.new) }
    ensures rules { OnOk result (Sound S place.gadget place.clock builder.old →
        Sound S place.gadget place.clock builder.new × IsFull S place.gadget builder.new) }
    ensures shares { IfOk result (λ c. IsSharing builder.new.wires S c.shares) }
    ensures product { IfOk result (λ c. AddsFact builder.old builder.new (λ cycles bits. Multiplies S cycles bits x.now.shares y.now.shares c.shares)) }
    ensures each { IfOk result (λ c. AddsFact builder.old builder.new (λ cycles bits.
        SharesAt S cycles bits (pair_bit builder.old.ports builder.old.given)
        x.now.shares y.now.shares c.shares)) }
{
    let a = copies(builder, place, PartKind::A, x)?;
    let b = copies(builder, place, PartKind::B, y)?;
    let inverse = inverses(builder, place, &a)?;
    let sums = squares(builder, place, &a, &b)?;
    let all = rows(builder, place, &a, &inverse, &b, &sums)?;
    Ok(all)
}

/// Adds a gadget that multiplies two sharings: in every trace its answer in cycle t+2 recombines to the product of `a` in cycle t+1
/// and `b` in cycle t.
///
/// Share i of the answer in cycle t+2 is `a_i b_i`, xor for each other index j `!a_i r ^ a_i (b_j ^ r)`, where r is the random bit of
/// the pair in cycle t.
///
/// It takes S (S - 1) / 2 fresh random bits, in the order of the pairs (0, 1), (0, 2), (1, 2), (0, 3), .. After `Memory` some parts may have been added.
///
/// This is HPC2 (Cassiers, Grégoire, Levi and Standaert, "Hardware Private Circuits: From Trivial Composition to Full
/// Verification", IEEE Transactions on Computers, 2021).
pub fn multiply<const S: usize>(
    builder: &mut Builder,
    a: &Sharing<S>,
    b: &Sharing<S>,
) -> Result<Sharing<S>, Memory>
    requires first { IsSharing builder.old.wires S a.now.shares }
    requires second { IsSharing builder.old.wires S b.now.shares }
    requires size { (2 ≤ S) × (S ≤ 16) }
    requires random { builder.old.given + S * (S - 1) / 2 ≤ length (random_bits builder.old.ports) }
    requires gadgets { builder.old.gadgets < 2 ^ 32 }
    ensures extends { OnOk result (Extends builder.old builder.new) }
    ensures ports { OnOk result (builder.new.ports ≡ builder.old.ports) }
    ensures gadgets { OnOk result (builder.new.gadgets ≡ builder.old.gadgets + 1) }
    ensures given { OnOk result (builder.new.given ≡ builder.old.given + S * (S - 1) / 2) }
    ensures cells { OnOk result (AddsCells builder.old builder.new) }
    ensures network { OnOk result (KeepsNetwork (S - 1) builder.old builder.new) }
    ensures shares { IfOk result (λ c. IsSharing builder.new.wires S c.shares) }
    ensures product { IfOk result (λ c. AddsFact builder.old builder.new (λ cycles bits. Multiplies S cycles bits a.now.shares b.now.shares c.shares)) }
    ensures each { IfOk result (λ c. AddsFact builder.old builder.new (λ cycles bits.
        SharesAt S cycles bits (pair_bit builder.old.ports builder.old.given)
        a.now.shares b.now.shares c.shares)) }
{
    let gadget = builder.begin_gadget();
    let alloc = builder.alloc();
    let source = Place {
        alloc,
        gadget,
        shares: S,
        clock: builder.clock(),
    };
    let clock = gate(
        builder,
        source,
        PartKind::Clk,
        0,
        0,
        Gate::Same(source.clock),
    )?;
    let place = Place {
        alloc,
        gadget,
        shares: S,
        clock,
    };
    let shares = product(builder, place, a, b)?;
    let answer = builder.copy(&shares)?;
    Ok(answer)
}
