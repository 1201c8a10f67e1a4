ghost use Rattle.std.specs.Prelude.{◌≡◌, ◌+◌, ◌∷◌, ◌++◌, [], length, IfOk, OnOk};
ghost use Rattle.agm_net.specs.Formula.{formula_of};
ghost use Rattle.annotations.specs.Spread as spec;

use agm_bits::Memory;
use agm_net::{Equation, Expr};
use std::alloc::Global;

/// The equations that set a wire to another wire alone, by that other wire. Equations go by their numbers, each one more than its
/// place, and 0 stands for none.
#[derive(Debug, Drop)]
pub struct Copies {
    /// For each wire the last equation that copies it.
    pub heads: Vec<usize>,
    /// For each equation that copies a wire the one before it that does.
    pub links: Vec<usize>,
}

// The wire that an expression is alone.
fn copied(expr: &Expr) -> Option<usize>
    ensures { result ≡ spec.copied (formula_of expr.now) }
{
    match expr {
        Expr::Wire(wire) => Some(*wire),
        _ => None,
    }
}

// Puts an equation in front of those that copy the same wire, and answers the one that stood there.
fn link(heads: &mut [usize], number: usize, expr: &Expr) -> usize
    ensures link { result ≡ spec.link_of heads.old (spec.copied (formula_of expr.now)) }
    ensures heads { heads.new ≡ spec.heads_after heads.old number (spec.copied (formula_of expr.now)) }
{
    match copied(expr) {
        Some(wire) if wire < heads.len() => {
            let before = heads[wire];
            heads[wire] = number;
            before
        }
        _ => 0,
    }
}

// Links all equations.
fn link_all(
    equations: &[Equation],
    heads: &mut [usize],
    links: &mut Vec<usize>,
) -> Result<(), Memory>
    requires empty { links.old.items ≡ [] }
    requires heads { spec.AreHeads equations.now 0 heads.old }
    ensures { OnOk result (spec.IsIndex equations.now (length heads.old) heads.new links.new.items) }
{
    for (place, equation) in equations.iter().enumerate() {
        let before = link(heads, place + 1, &equation.expr);
        links.push(before)?;
    }
    Ok(())
}

/// The index of the copies of n wires.
pub fn copies_of(alloc: Global, n: usize, equations: &[Equation]) -> Result<Copies, Memory>
    ensures { IfOk result (λ copies. spec.IsIndex equations.now n copies.heads.items copies.links.items) }
{
    let mut heads = vec![in alloc; 0usize; n]?;
    let mut links = Vec::new(alloc);
    link_all(equations, heads.as_mut_slice(), &mut links)?;
    Ok(Copies { heads, links })
}
