//! Values that are public or secret, and what is made of them.

ghost use Rattle.std.specs.Prelude.{◌≡◌, ◌<◌, ◌≤◌, ◌+◌, ◌-◌, ◌*◌, ◌/◌, ◌^◌, ◌&&◌, ◌||◌, ℕ, length, false, IsTrue, IfOk};
ghost use Rattle.agm_net.specs.Formula.{xor};
ghost use Rattle.share_wiring.specs.Adds.{random_bits};
ghost use Rattle.share_wiring.specs.Wiring.{IsSharing};
ghost use Rattle.pipeline_balance.specs.Signals.{Carries, Joins, Products};
ghost use Rattle.pipeline_balance.specs.Shared.{shared, Makes};
ghost use Rattle.pipeline_balance.specs.Valued.{is_secret as is_secret_value, size_of, wires_of, IsValue, signal, MakesValue, Equals, IsInverse};

use agm_bits::Memory;
use hpc2_gadget::multiply;
use share_wiring::{Builder, Sharing};

/// A public wire, which is a sharing of one share, or a secret's sharing.
#[derive(Clone, Copy)]
pub enum Value<const S: usize> {
    Public(Sharing<1>),
    Secret(Sharing<S>),
}

/// Whether a value is secret.
pub fn is_secret<const S: usize>(value: &Value<S>) -> bool
    ensures { result ≡ is_secret_value value.now }
{
    match *value {
        Value::Public(_) => false,
        Value::Secret(_) => true,
    }
}

/// A constant, which is public.
pub fn constant<const S: usize>(builder: &mut Builder, bit: bool) -> Result<Value<S>, Memory>
    requires size { (0 < S) × (S ≤ 16) }
    ensures kind { IfOk result (λ z. is_secret_value z ≡ false) }
    ensures made { IfOk result (λ z. MakesValue builder.old builder.new S 0 0 z (λ cycles bits. (t : ℕ) → t < cycles → signal S bits z t ≡ bit)) }
{
    let wire = builder.constant(bit)?;
    Ok(Value::Public(wire))
}

/// The shares of a value. A public one is share 0, and the others are 0.
pub fn secret_of<const S: usize>(builder: &mut Builder, x: &Value<S>) -> Result<Sharing<S>, Memory>
    requires size { (0 < S) × (S ≤ 16) }
    requires value { IsValue S builder.old x.now }
    ensures { IfOk result (λ z. Makes S builder.old builder.new S 0 0 z.shares (λ cycles bits. Equals cycles (signal S bits x.now) (shared S bits z.shares))) }
{
    match *x {
        Value::Public(wire) => {
            let sharing = builder.public(wire.shares[0])?;
            Ok(sharing)
        }
        Value::Secret(sharing) => Ok(sharing),
    }
}

/// The value that another had in the cycle before, in registers.
pub fn delayed<const S: usize>(builder: &mut Builder, x: &Value<S>) -> Result<Value<S>, Memory>
    requires size { (0 < S) × (S ≤ 16) }
    requires value { IsValue S builder.old x.now }
    ensures kind { IfOk result (λ z. is_secret_value z ≡ is_secret_value x.now) }
    ensures made { IfOk result (λ z. MakesValue builder.old builder.new S 0 0 z (λ cycles bits. (p : ℕ) → Carries cycles p (p + 1) (signal S bits x.now) (signal S bits z))) }
{
    match *x {
        Value::Public(wire) => {
            let next = builder.delay(&wire)?;
            Ok(Value::Public(next))
        }
        Value::Secret(sharing) => {
            let next = builder.delay(&sharing)?;
            Ok(Value::Secret(next))
        }
    }
}

/// The inverse of a value.
pub fn inverse<const S: usize>(builder: &mut Builder, x: &Value<S>) -> Result<Value<S>, Memory>
    requires size { (0 < S) × (S ≤ 16) }
    requires value { IsValue S builder.old x.now }
    ensures kind { IfOk result (λ z. is_secret_value z ≡ is_secret_value x.now) }
    ensures made { IfOk result (λ z. MakesValue builder.old builder.new S 0 0 z (λ cycles bits. IsInverse cycles (signal S bits x.now) (signal S bits z))) }
{
    match *x {
        Value::Public(wire) => {
            let inverted = builder.not(&wire)?;
            Ok(Value::Public(inverted))
        }
        Value::Secret(sharing) => {
            let inverted = builder.not(&sharing)?;
            Ok(Value::Secret(inverted))
        }
    }
}

// The exclusive or of a public wire and a value.
fn public_sum<const S: usize>(
    builder: &mut Builder,
    x: &Sharing<1>,
    y: &Value<S>,
) -> Result<Value<S>, Memory>
    requires size { (0 < S) × (S ≤ 16) }
    requires left { IsSharing builder.old.wires 1 x.now.shares }
    requires right { IsValue S builder.old y.now }
    ensures kind { IfOk result (λ z. is_secret_value z ≡ is_secret_value y.now) }
    ensures made { IfOk result (λ z. MakesValue builder.old builder.new S 0 0 z (λ cycles bits. Joins cycles xor (shared 1 bits x.now.shares) (signal S bits y.now) (signal S bits z))) }
{
    match *y {
        Value::Public(wire) => {
            let sum = builder.xor(x, &wire)?;
            Ok(Value::Public(sum))
        }
        Value::Secret(sharing) => {
            let spread = builder.public(x.shares[0])?;
            let sum = builder.xor(&spread, &sharing)?;
            Ok(Value::Secret(sum))
        }
    }
}

// The exclusive or of a sharing and a value.
fn secret_sum<const S: usize>(
    builder: &mut Builder,
    x: &Sharing<S>,
    y: &Value<S>,
) -> Result<Value<S>, Memory>
    requires size { (0 < S) × (S ≤ 16) }
    requires left { IsSharing builder.old.wires S x.now.shares }
    requires right { IsValue S builder.old y.now }
    ensures kind { IfOk result (λ z. IsTrue (is_secret_value z)) }
    ensures made { IfOk result (λ z. MakesValue builder.old builder.new S 0 0 z (λ cycles bits. Joins cycles xor (shared S bits x.now.shares) (signal S bits y.now) (signal S bits z))) }
{
    let other = secret_of(builder, y)?;
    let sum = builder.xor(x, &other)?;
    Ok(Value::Secret(sum))
}

/// The exclusive or of two values, which is secret where one of them is.
pub fn sum<const S: usize>(
    builder: &mut Builder,
    x: &Value<S>,
    y: &Value<S>,
) -> Result<Value<S>, Memory>
    requires size { (0 < S) × (S ≤ 16) }
    requires left { IsValue S builder.old x.now }
    requires right { IsValue S builder.old y.now }
    ensures kind { IfOk result (λ z. is_secret_value z ≡ (is_secret_value x.now || is_secret_value y.now)) }
    ensures made { IfOk result (λ z. MakesValue builder.old builder.new S 0 0 z (λ cycles bits. Joins cycles xor (signal S bits x.now) (signal S bits y.now) (signal S bits z))) }
{
    match *x {
        Value::Public(wire) => {
            let made = public_sum(builder, &wire, y)?;
            Ok(made)
        }
        Value::Secret(sharing) => {
            let made = secret_sum(builder, &sharing, y)?;
            Ok(made)
        }
    }
}

// The product of a public wire and a value.
fn public_product<const S: usize>(
    builder: &mut Builder,
    x: &Sharing<1>,
    y: &Value<S>,
) -> Result<Value<S>, Memory>
    requires size { (0 < S) × (S ≤ 16) }
    requires left { IsSharing builder.old.wires 1 x.now.shares }
    requires right { IsValue S builder.old y.now }
    ensures kind { IfOk result (λ z. is_secret_value z ≡ is_secret_value y.now) }
    ensures made { IfOk result (λ z. MakesValue builder.old builder.new S 0 0 z (λ cycles bits. Joins cycles (λ a b. a && b) (shared 1 bits x.now.shares) (signal S bits y.now) (signal S bits z))) }
{
    match *y {
        Value::Public(wire) => {
            let product = builder.and_public(x.shares[0], &wire)?;
            Ok(Value::Public(product))
        }
        Value::Secret(sharing) => {
            let product = builder.and_public(x.shares[0], &sharing)?;
            Ok(Value::Secret(product))
        }
    }
}

// The product of a sharing and a public value.
fn secret_product<const S: usize>(
    builder: &mut Builder,
    x: &Sharing<S>,
    y: &Value<S>,
) -> Result<Value<S>, Memory>
    requires size { (0 < S) × (S ≤ 16) }
    requires left { IsSharing builder.old.wires S x.now.shares }
    requires right { IsValue S builder.old y.now }
    requires public { is_secret_value y.now ≡ false }
    ensures kind { IfOk result (λ z. IsTrue (is_secret_value z)) }
    ensures made { IfOk result (λ z. MakesValue builder.old builder.new S 0 0 z (λ cycles bits. Joins cycles (λ a b. a && b) (shared S bits x.now.shares) (signal S bits y.now) (signal S bits z))) }
{
    match *y {
        Value::Public(wire) => {
            let product = builder.and_public(wire.shares[0], x)?;
            Ok(Value::Secret(product))
        }
        Value::Secret(_) => unreachable!(),
    }
}

/// The product of two values of which one is public, at least. It is secret where the other is.
pub fn product<const S: usize>(
    builder: &mut Builder,
    x: &Value<S>,
    y: &Value<S>,
) -> Result<Value<S>, Memory>
    requires size { (0 < S) × (S ≤ 16) }
    requires left { IsValue S builder.old x.now }
    requires right { IsValue S builder.old y.now }
    requires public { (is_secret_value x.now && is_secret_value y.now) ≡ false }
    ensures kind { IfOk result (λ z. is_secret_value z ≡ (is_secret_value x.now || is_secret_value y.now)) }
    ensures made { IfOk result (λ z. MakesValue builder.old builder.new S 0 0 z (λ cycles bits. Joins cycles (λ a b. a && b) (signal S bits x.now) (signal S bits y.now) (signal S bits z))) }
{
    match *x {
        Value::Public(wire) => {
            let made = public_product(builder, &wire, y)?;
            Ok(made)
        }
        Value::Secret(sharing) => {
            let made = secret_product(builder, &sharing, y)?;
            Ok(made)
        }
    }
}

/// The product of two secrets by a gadget: of the first in the cycle before and the second two cycles before.
pub fn gadget<const S: usize>(
    builder: &mut Builder,
    late: &Value<S>,
    early: &Value<S>,
) -> Result<Value<S>, Memory>
    requires size { (2 ≤ S) × (S ≤ 16) }
    requires left { IsValue S builder.old late.now }
    requires right { IsValue S builder.old early.now }
    requires random { builder.old.given + S * (S - 1) / 2 ≤ length (random_bits builder.old.ports) }
    requires gadgets { builder.old.gadgets < 2 ^ 32 }
    ensures kind { IfOk result (λ z. IsTrue (is_secret_value z)) }
    ensures made { IfOk result (λ z. MakesValue builder.old builder.new S 1 (S * (S - 1) / 2) z (λ cycles bits. Products cycles (signal S bits late.now) (signal S bits early.now) (signal S bits z))) }
{
    let x = secret_of(builder, late)?;
    let y = secret_of(builder, early)?;
    let answer = multiply(builder, &x, &y)?;
    Ok(Value::Secret(answer))
}
