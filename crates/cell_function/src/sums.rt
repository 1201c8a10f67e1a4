ghost use Rattle.std.specs.Prelude.{◌≡◌, IfOk};
ghost use Rattle.cell_function.specs.Parts.{parts_of};
ghost use Rattle.cell_function.specs.Reading as spec;
ghost use Rattle.cell_function.specs.Tree.{tree_of, t_and, t_or, t_xor};

use crate::Function;
use crate::cut::front;
use crate::function::{and_of, not_of, or_of, xor_of};
use crate::part::Part;
use crate::signs::{behind_and, behind_or, behind_sign};
use crate::stop::Stop;
use agm_bits::{Memory, Name};
use std::alloc::Global;

// `sum )`, behind `(`.
#[cycle(sums)]
fn inside(alloc: Global, limit: usize, text: &[u8]) -> Result<(Function, &[u8]), Stop>
    ensures { spec.Gives (λ x. (tree_of x.0, parts_of x.1.now)) result (spec.inside_at (spec.inner_at limit) (parts_of text.now)) }
{
    if limit == 0 {
        return Err(Stop::Wrong);
    }
    let (function, rest) = sum(alloc, limit - 1, text)?;
    match behind_sign(b')', rest) {
        Some(behind) => Ok((function, behind)),
        None => Err(Stop::Wrong),
    }
}

// A name, a constant or parentheses.
#[cycle(sums)]
fn operand(alloc: Global, limit: usize, text: &[u8]) -> Result<(Function, &[u8]), Stop>
    ensures { spec.Gives (λ x. (tree_of x.0, parts_of x.1.now)) result (spec.operand_at (spec.inner_at limit) (parts_of text.now)) }
{
    match front(text) {
        Some((Part::Name(name), behind)) => {
            Ok((Function::Pin(Name::from_slice(alloc, name)?), behind))
        }
        Some((Part::Sign(b'0'), behind)) => Ok((Function::Constant(false), behind)),
        Some((Part::Sign(b'1'), behind)) => Ok((Function::Constant(true), behind)),
        Some((Part::Sign(b'('), behind)) => inside(alloc, limit, behind),
        _ => Err(Stop::Wrong),
    }
}

// `'` as often as it comes.
fn primes(
    alloc: Global,
    limit: usize,
    function: Function,
    text: &[u8],
) -> Result<(Function, &[u8]), Memory>
    ensures { IfOk result (λ x. (tree_of x.0, parts_of x.1.now) ≡ spec.primes_at limit (tree_of function) (parts_of text.now)) }
{
    let mut inverted = function;
    let mut rest = text;
    for _ in 0..limit {
        match behind_sign(b'\'', rest) {
            Some(behind) => {
                inverted = not_of(alloc, inverted)?;
                rest = behind;
            }
            None => return Ok((inverted, rest)),
        }
    }
    Ok((inverted, rest))
}

// An operand with inversions behind it.
#[cycle(sums)]
#[tactic(auto, unfolding(crate::specs::Reading::primed_at))]
fn primed(alloc: Global, limit: usize, text: &[u8]) -> Result<(Function, &[u8]), Stop>
    ensures { spec.Gives (λ x. (tree_of x.0, parts_of x.1.now)) result (spec.primed_at limit (spec.inner_at limit) (parts_of text.now)) }
{
    let (function, rest) = operand(alloc, limit, text)?;
    let (function, rest) = primes(alloc, limit, function, rest)?;
    Ok((function, rest))
}

// How often `!` comes, and what stands behind.
fn bangs(limit: usize, text: &[u8]) -> (usize, &[u8])
    ensures { (result.0, parts_of result.1.now) ≡ spec.bangs_at limit 0 (parts_of text.now) }
{
    let mut count = 0;
    let mut rest = text;
    for _ in 0..limit {
        match behind_sign(b'!', rest) {
            Some(behind) => {
                count += 1;
                rest = behind;
            }
            None => return (count, rest),
        }
    }
    (count, rest)
}

// So many inversions of a function.
fn nots(alloc: Global, count: usize, function: Function) -> Result<Function, Memory>
    ensures { IfOk result (λ f. tree_of f ≡ spec.nots count (tree_of function)) }
{
    let mut inverted = function;
    for _ in 0..count {
        inverted = not_of(alloc, inverted)?;
    }
    Ok(inverted)
}

// An operand with inversions before and behind it.
#[cycle(sums)]
#[tactic(auto, unfolding(crate::specs::Reading::factor_at))]
fn factor(alloc: Global, limit: usize, text: &[u8]) -> Result<(Function, &[u8]), Stop>
    ensures { spec.Gives (λ x. (tree_of x.0, parts_of x.1.now)) result (spec.factor_at limit (spec.inner_at limit) (parts_of text.now)) }
{
    let (count, rest) = bangs(limit, text);
    let (function, rest) = primed(alloc, limit, rest)?;
    let function = nots(alloc, count, function)?;
    Ok((function, rest))
}

// `^ factor` as often as it comes.
#[cycle(sums)]
fn more_factors(
    alloc: Global,
    limit: usize,
    first: Function,
    text: &[u8],
) -> Result<(Function, &[u8]), Stop>
    ensures { spec.Gives (λ x. (tree_of x.0, parts_of x.1.now)) result (spec.left_at spec.behind_xor t_xor (spec.factor_at limit (spec.inner_at limit)) limit (tree_of first) (parts_of text.now)) }
{
    let mut chain = first;
    let mut rest = text;
    for _ in 0..limit {
        match behind_sign(b'^', rest) {
            Some(behind) => {
                let (next, behind) = factor(alloc, limit, behind)?;
                chain = xor_of(alloc, chain, next)?;
                rest = behind;
            }
            None => return Ok((chain, rest)),
        }
    }
    Ok((chain, rest))
}

// Factors with `^` between them.
#[cycle(sums)]
#[tactic(auto, unfolding(crate::specs::Reading::chain_at))]
fn chain(alloc: Global, limit: usize, text: &[u8]) -> Result<(Function, &[u8]), Stop>
    ensures { spec.Gives (λ x. (tree_of x.0, parts_of x.1.now)) result (spec.chain_at limit (spec.inner_at limit) (parts_of text.now)) }
{
    let (first, rest) = factor(alloc, limit, text)?;
    more_factors(alloc, limit, first, rest)
}

// `* chain`, `& chain` or a chain alone as often as it comes.
#[cycle(sums)]
fn more_chains(
    alloc: Global,
    limit: usize,
    first: Function,
    text: &[u8],
) -> Result<(Function, &[u8]), Stop>
    ensures { spec.Gives (λ x. (tree_of x.0, parts_of x.1.now)) result (spec.left_at spec.behind_and t_and (spec.chain_at limit (spec.inner_at limit)) limit (tree_of first) (parts_of text.now)) }
{
    let mut product = first;
    let mut rest = text;
    for _ in 0..limit {
        match behind_and(rest) {
            Some(behind) => {
                let (next, behind) = chain(alloc, limit, behind)?;
                product = and_of(alloc, product, next)?;
                rest = behind;
            }
            None => return Ok((product, rest)),
        }
    }
    Ok((product, rest))
}

// Chains with `*`, `&` or nothing between them.
#[cycle(sums)]
#[tactic(auto, unfolding(crate::specs::Reading::product_at))]
fn product(alloc: Global, limit: usize, text: &[u8]) -> Result<(Function, &[u8]), Stop>
    ensures { spec.Gives (λ x. (tree_of x.0, parts_of x.1.now)) result (spec.product_at limit (spec.inner_at limit) (parts_of text.now)) }
{
    let (first, rest) = chain(alloc, limit, text)?;
    more_chains(alloc, limit, first, rest)
}

// `+ product` or `| product` as often as it comes.
#[cycle(sums)]
fn more_products(
    alloc: Global,
    limit: usize,
    first: Function,
    text: &[u8],
) -> Result<(Function, &[u8]), Stop>
    ensures { spec.Gives (λ x. (tree_of x.0, parts_of x.1.now)) result (spec.left_at spec.behind_or t_or (spec.product_at limit (spec.inner_at limit)) limit (tree_of first) (parts_of text.now)) }
{
    let mut sum = first;
    let mut rest = text;
    for _ in 0..limit {
        match behind_or(rest) {
            Some(behind) => {
                let (next, behind) = product(alloc, limit, behind)?;
                sum = or_of(alloc, sum, next)?;
                rest = behind;
            }
            None => return Ok((sum, rest)),
        }
    }
    Ok((sum, rest))
}

// Products with `+` or `|` between them. The limit bounds how deep parentheses nest, and how many
// operands and signs stand in a row.
#[cycle(sums)]
pub(crate) fn sum(alloc: Global, limit: usize, text: &[u8]) -> Result<(Function, &[u8]), Stop>
    ensures { spec.Gives (λ x. (tree_of x.0, parts_of x.1.now)) result (spec.sum_at limit (parts_of text.now)) }
{
    let (first, rest) = product(alloc, limit, text)?;
    more_products(alloc, limit, first, rest)
}
