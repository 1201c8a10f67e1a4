//! Sharings, and the wires that steps make of them.

ghost use Rattle.std.specs.Prelude.{ℕ, ◌≡◌, ◌<◌, ◌≤◌, ◌+◌, ◌^◌, ◌++◌, length, take, cond, OnOk, OnErr, IfOk};
ghost use Rattle.share_wiring.specs.Wiring.{share};
ghost use Rattle.share_wiring.specs.Own.{own_name as own_name_of, own_wires, source_of, upto, closed_wires};

use crate::gate::{Gate, Source, Step, Wire};
use agm_bits::{Memory, Name};
use std::alloc::Global;

/// The wires of the shares of a bit, which is the exclusive or of them.
#[derive(Clone, Copy)]
pub struct Sharing<const S: usize> {
    pub shares: [usize; S],
}

// The gate of a constant.
fn constant(bit: bool) -> Gate
    ensures { result ≡ cond bit Gate.One Gate.Zero }
{
    if bit { Gate::One } else { Gate::Zero }
}

// The source of share i of what a step makes of two wires.
fn source(step: Step, i: usize, x: usize, y: usize) -> Source
    ensures { result ≡ source_of step i x y }
{
    match step {
        Step::Copy => Source::Equation(Gate::Same(x)),
        Step::Constant(bit) if i == 0 => Source::Equation(constant(bit)),
        Step::Constant(_) => Source::Equation(Gate::Zero),
        Step::First if i == 0 => Source::Equation(Gate::Same(x)),
        Step::First => Source::Equation(Gate::Zero),
        Step::Not if i == 0 => Source::Equation(Gate::Not(x)),
        Step::Not => Source::Equation(Gate::Same(x)),
        Step::Xor => Source::Equation(Gate::Xor(x, y)),
        Step::And(wire) => Source::Equation(Gate::And(wire, x)),
        Step::Delay => Source::Register(x, 0),
        Step::Hold => Source::Held,
    }
}

// The name of wire k, which is made as share i.
fn own_name(alloc: Global, shares: usize, i: usize, k: usize) -> Result<Name, Memory>
    ensures { IfOk result (λ n. n ≡ own_name_of shares i k) }
{
    let text = if shares == 1 {
        format!(in alloc; "agm_p.{k}")?
    } else {
        format!(in alloc; "agm_d{i}.{k}")?
    };
    Ok(Name::from_slice(alloc, text.as_bytes())?)
}

/// Adds the wires that a step makes of two sharings. After `Memory` some may have been added.
pub fn push_step<const S: usize>(
    alloc: Global,
    step: Step,
    x: &Sharing<S>,
    y: &Sharing<S>,
    wires: &mut Vec<Wire>,
) -> Result<(), Memory>
    ensures ok { OnOk result (wires.new.items ≡ wires.old.items ++ own_wires S (length wires.old.items) (λ i. source_of step i (share x.now.shares i) (share y.now.shares i)) S) }
    ensures err { OnErr result (take (length wires.old.items) wires.new.items ≡ wires.old.items) }
{
    for i in 0..S {
        let name = own_name(alloc, S, i, wires.len())?;
        let source = source(step, i, x.shares[i], y.shares[i]);
        wires.push(Wire { name, source })?;
    }
    Ok(())
}

/// The wires from one number on.
pub fn ascending<const S: usize>(first: usize) -> Sharing<S>
    requires { first + S < 2 ^ 64 }
    ensures { result.shares ≡ upto S (λ i. first + i) }
{
    let mut shares = [0usize; S];
    for i in 0..S {
        shares[i] = first + i;
    }
    Sharing { shares }
}

/// Makes wires registers of the next values of their indices.
pub fn close_wires<const S: usize>(held: &Sharing<S>, next: &Sharing<S>, wires: &mut Vec<Wire>)
    requires { (i : ℕ) → i < S → share held.now.shares i < length wires.old.items }
    ensures { wires.new.items ≡ closed_wires S (share held.now.shares) (share next.now.shares) wires.old.items }
{
    for i in 0..S {
        let wire = held.shares[i];
        wires[wire].source = Source::Register(next.shares[i], 0);
    }
}
