//! Registers, which are held while nodes are made and closed behind them.

ghost use Rattle.std.specs.Prelude.{◌≡◌, ◌<◌, ◌≤◌, ◌+◌, ◌-◌, ℕ, List, length, map, false, IfOk, OnOk};
ghost use Rattle.share_wiring.specs.Wiring.{IsSharing, IsPublicWire, share};
ghost use Rattle.pipeline_balance.specs.declared.values.Value.TheVariants as value;
ghost use Rattle.pipeline_balance.specs.Signals.{selected};
ghost use Rattle.pipeline_balance.specs.Shared.{shared, Makes, Adds};
ghost use Rattle.pipeline_balance.specs.Valued.{is_secret as is_secret_value, size_of, wires_of, IsValue, signal, MakesValue};
ghost use Rattle.pipeline_balance.specs.Chained.{value_at, AreSources};
ghost use Rattle.pipeline_balance.specs.Registered.{AreOpen, IsHeld, AreRegisters, HeldFrom, Goes, IsChosen, OthersStay, AreClosed};

use crate::nodes::source_value;
use crate::values::{Value, secret_of};
use agm_bits::{List, Memory};
use share_wiring::{Builder, Sharing};

// Held registers for a value, which are public where it is.
fn held_like<const S: usize>(builder: &mut Builder, like: &Value<S>) -> Result<Value<S>, Memory>
    requires size { (0 < S) × (S ≤ 16) }
    ensures kind { IfOk result (λ z. is_secret_value z ≡ is_secret_value like.now) }
    ensures made { IfOk result (λ z. MakesValue builder.old builder.new S 0 0 z (λ cycles bits. Unit {0})) }
    ensures held { IfOk result (IsHeld S builder.new) }
    ensures fresh { IfOk result (λ z. (i : ℕ) → i < size_of S z → length builder.old.wires ≤ share (wires_of z) i) }
{
    match *like {
        Value::Public(_) => {
            let wire = builder.hold()?;
            Ok(Value::Public(wire))
        }
        Value::Secret(_) => {
            let sharing = builder.hold()?;
            Ok(Value::Secret(sharing))
        }
    }
}

/// Held registers for each of some initial values.
pub fn hold_registers<const S: usize>(
    builder: &mut Builder,
    likes: &[Value<S>],
) -> Result<List<Value<S>>, Memory>
    requires size { (0 < S) × (S ≤ 16) }
    ensures registers { IfOk result (AreRegisters S builder.new likes.now) }
    ensures held { IfOk result (HeldFrom S builder.new 0) }
    ensures adds { OnOk result (Adds S builder.old builder.new 0 0 (λ cycles bits. Unit {0})) }
{
    let mut held = List::new(builder.alloc());
    for k in 0..likes.len() {
        let like = source_value(likes, k);
        let next = held_like(builder, &like)?;
        held.push(next)?;
    }
    Ok(held)
}

// What stands before the last stage of a register: `late`, but the initial value where the load signal is 1.
fn selection<const S: usize>(
    builder: &mut Builder,
    load: usize,
    initial: &Sharing<S>,
    late: &Sharing<S>,
) -> Result<Sharing<S>, Memory>
    requires load { IsPublicWire builder.old.wires load }
    requires initial { IsSharing builder.old.wires S initial.now.shares }
    requires late { IsSharing builder.old.wires S late.now.shares }
    requires size { (0 < S) × (S ≤ 16) }
    ensures { IfOk result (λ z. (s : ℕ) → S ≤ s - 1 + 1 → Makes s builder.old builder.new S 0 0 z.shares (λ cycles bits. (t : ℕ) → t < cycles → shared S bits z.shares t ≡ selected (bits t load) (shared S bits initial.now.shares t) (shared S bits late.now.shares t))) }
{
    let difference = builder.xor(late, initial)?;
    let masked = builder.and_public(load, &difference)?;
    let sum = builder.xor(late, &masked)?;
    Ok(sum)
}

// Closes registers on shares of one number.
fn close_shares<const S: usize>(
    builder: &mut Builder,
    load: usize,
    initial: &Sharing<S>,
    held: &Sharing<S>,
    late: &Sharing<S>,
) -> Result<(), Memory>
    requires load { IsPublicWire builder.old.wires load }
    requires initial { IsSharing builder.old.wires S initial.now.shares }
    requires held { AreOpen S builder.old.wires held.now.shares }
    requires late { IsSharing builder.old.wires S late.now.shares }
    requires size { (0 < S) × (S ≤ 16) }
    ensures goes { OnOk result ((s : ℕ) → S ≤ s - 1 + 1 → Goes s builder.old builder.new (λ cycles bits. IsChosen cycles bits load (shared S bits held.now.shares) (shared S bits initial.now.shares) (shared S bits late.now.shares))) }
    ensures others { OnOk result (OthersStay builder.old builder.new S held.now.shares) }
{
    let chosen = selection(builder, load, initial, late)?;
    builder.close(held, &chosen);
    Ok(())
}

// Closes registers that hold a secret.
fn close_secret<const S: usize>(
    builder: &mut Builder,
    load: usize,
    initial: &Value<S>,
    held: &Sharing<S>,
    next: &Value<S>,
) -> Result<(), Memory>
    requires load { IsPublicWire builder.old.wires load }
    requires initial { IsValue S builder.old initial.now }
    requires held { AreOpen S builder.old.wires held.now.shares }
    requires next { IsValue S builder.old next.now }
    requires size { (0 < S) × (S ≤ 16) }
    ensures goes { OnOk result (Goes S builder.old builder.new (λ cycles bits. IsChosen cycles bits load (shared S bits held.now.shares) (signal S bits initial.now) (signal S bits next.now))) }
    ensures others { OnOk result (OthersStay builder.old builder.new S held.now.shares) }
{
    let first = secret_of(builder, initial)?;
    let late = secret_of(builder, next)?;
    close_shares(builder, load, &first, held, &late)?;
    Ok(())
}

/// The wire of a public value.
pub fn public_of<const S: usize>(x: &Value<S>) -> Sharing<1>
    requires { is_secret_value x.now ≡ false }
    ensures { x.now ≡ value.Public result }
{
    match *x {
        Value::Public(wire) => wire,
        Value::Secret(_) => unreachable!(),
    }
}

// Closes registers: each has in each cycle the next value of the cycle before, or the initial one where load was 1.
fn close_register<const S: usize>(
    builder: &mut Builder,
    load: usize,
    initial: &Value<S>,
    held: &Value<S>,
    next: &Value<S>,
) -> Result<(), Memory>
    requires load { IsPublicWire builder.old.wires load }
    requires initial { IsValue S builder.old initial.now }
    requires held { IsHeld S builder.old held.now }
    requires next { IsValue S builder.old next.now }
    requires kind { is_secret_value held.now ≡ false → (is_secret_value initial.now ≡ false) × (is_secret_value next.now ≡ false) }
    requires size { (0 < S) × (S ≤ 16) }
    ensures goes { OnOk result (Goes S builder.old builder.new (λ cycles bits. IsChosen cycles bits load (signal S bits held.now) (signal S bits initial.now) (signal S bits next.now))) }
    ensures others { OnOk result (OthersStay builder.old builder.new (size_of S held.now) (wires_of held.now)) }
{
    match *held {
        Value::Public(register) => {
            let first = public_of(initial);
            let late = public_of(next);
            close_shares(builder, load, &first, &register, &late)?;
            Ok(())
        }
        Value::Secret(registers) => {
            close_secret(builder, load, initial, &registers, next)?;
            Ok(())
        }
    }
}

/// Closes all registers, each with its initial value and its next one.
pub fn close_registers<const S: usize>(
    builder: &mut Builder,
    load: usize,
    firsts: &[Value<S>],
    registers: &[Value<S>],
    nexts: &[Value<S>],
) -> Result<(), Memory>
    requires size { (0 < S) × (S ≤ 16) }
    requires load { IsPublicWire builder.old.wires load }
    requires each { (length firsts.now ≡ length registers.now) × (length nexts.now ≡ length registers.now) }
    requires registers { AreRegisters S builder.old firsts.now registers.now }
    requires held { HeldFrom S builder.old 0 registers.now }
    requires firsts { AreSources S builder.old firsts.now }
    requires nexts { AreSources S builder.old nexts.now }
    requires public { (r : ℕ) → r < length registers.now → is_secret_value (value_at registers.now r) ≡ false → is_secret_value (value_at nexts.now r) ≡ false }
    ensures { OnOk result (AreClosed S builder.old builder.new load firsts.now registers.now nexts.now (length registers.now)) }
{
    for k in 0..registers.len() {
        let first = source_value(firsts, k);
        let register = source_value(registers, k);
        let next = source_value(nexts, k);
        close_register(builder, load, &first, &register, &next)?;
    }
    Ok(())
}
