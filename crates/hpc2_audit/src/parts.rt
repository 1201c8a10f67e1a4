//! Which part of a gadget has a name.

ghost use Rattle.std.specs.Prelude.{◌≡◌, ◌≢◌, ◌<◌, ◌^◌, ◌∷◌, ℕ, List, MatchOption};
ghost use Rattle.agm_net.specs.Label.{HasNumbers, IsPartName, gadget_name};
ghost use Rattle.agm_net.specs.declared.label.Part.{Part as APart};
ghost use Rattle.agm_net.specs.declared.label.PartKind.{PartKind as Kind};
ghost use Rattle.hpc2_audit.specs.Kinds.{IsPair, IsShaped};
ghost use Rattle.hpc2_audit.specs.Kinds as spec;
ghost use Rattle.hpc2_audit.specs.Parts.{IsText, Writes};

use crate::kinds::{Shape, has_indices, kind_of, shape_of};
use crate::numbers::{bracketed, number_of, run_end, split_number};
use agm_net::{Part, PartKind};

// The number in `_3`.
fn lined(tail: &[u8]) -> Option<u32>
    ensures { MatchOption result ((i : ℕ) → IsShaped Shape.Single i 0 tail.now → ⊥) (λ i. IsShaped Shape.Single i 0 tail.now) }
{
    match tail {
        [b'_', digits @ ..] => number_of(digits),
        _ => None,
    }
}

// The two numbers in `3_5`.
fn two_numbers(text: &[u8]) -> Option<(u32, u32)>
    ensures { MatchOption result ((i j : ℕ) → spec.AreTwo i j text.now → ⊥) (λ r. spec.AreTwo r.0 r.1 text.now) }
{
    match split_number(text) {
        Some((i, rest)) => match lined(rest) {
            Some(j) => Some((i, j)),
            None => None,
        },
        None => None,
    }
}

// The two numbers in `_3_5`.
fn both(tail: &[u8]) -> Option<(u32, u32)>
    ensures { MatchOption result ((i j : ℕ) → IsShaped Shape.Double i j tail.now → ⊥) (λ r. IsShaped Shape.Double r.0 r.1 tail.now) }
{
    match tail {
        [b'_', text @ ..] => two_numbers(text),
        _ => None,
    }
}

// The numbers in a tail of a shape, 0 for those that it lacks.
fn numbers_in(shape: Shape, tail: &[u8]) -> Option<(u32, u32)>
    ensures { MatchOption result ((i j : ℕ) → IsShaped shape i j tail.now → ⊥) (λ r. IsShaped shape r.0 r.1 tail.now) }
{
    match shape {
        Shape::Bare => { if tail.is_empty() { Some((0, 0)) } else { None } }
        Shape::Bracket => match bracketed(tail) {
            Some(i) => Some((i, 0)),
            None => None,
        },
        Shape::Single => match lined(tail) {
            Some(i) => Some((i, 0)),
            None => None,
        },
        Shape::Double => both(tail),
    }
}

// The kind and the numbers of a text, 0 for those that it lacks.
fn read_text(text: &[u8]) -> Option<(PartKind, u32, u32)>
    ensures { MatchOption result ((k : Kind) (i j : ℕ) → IsText k i j text.now → ⊥) (λ r. IsText r.0 r.1 r.2 text.now) }
{
    let end = run_end(text, b'a', b'z');
    match kind_of(&text[..end]) {
        Some(kind) => match numbers_in(shape_of(kind), &text[end..]) {
            Some((i, j)) => Some((kind, i, j)),
            None => None,
        },
        None => None,
    }
}

// The pair of indices up to an order that has a number.
fn pair_of(order: u32, number: u32) -> Option<(usize, usize)>
    ensures { MatchOption result ((i j : ℕ) → IsPair order number i j → ⊥) (λ r. IsPair order number r.0 r.1) }
{
    let most = order as usize;
    let mut left = number as usize;
    for i in 0..most {
        if left < most - i {
            return Some((i, i + 1 + left));
        }
        left -= most - i;
    }
    None
}

// The indices of a part of a kind by the numbers in its name.
fn indices_of(order: u32, kind: PartKind, i: u32, j: u32) -> Option<(usize, usize)>
    requires { spec.AreNumbers (spec.shape kind) i j }
    ensures { MatchOption result ((a b : ℕ) → HasNumbers order kind a b → Writes order kind a b i j → ⊥) (λ r. HasNumbers order kind r.0 r.1 × Writes order kind r.0 r.1 i j) }
{
    if matches!(kind, PartKind::R) {
        return pair_of(order, i);
    }
    if has_indices(order, kind, i as usize, j as usize) {
        Some((i as usize, j as usize))
    } else {
        None
    }
}

// The number of the gadget of which something is a wire, and what stands behind the dot.
fn behind_gadget(name: &[u8]) -> Option<(u32, &[u8])>
    ensures { MatchOption result ((g : ℕ) (t : List ℕ) → g < 2 ^ 32 → name.now ≢ gadget_name g t) (λ r. (r.0 < 2 ^ 32) × (name.now ≡ gadget_name r.0 r.1.now)) }
{
    match name.strip_prefix(b"agm_g".as_slice()) {
        Some(behind) => behind_number(behind),
        None => None,
    }
}

// What stands behind a dot in front.
fn behind_dot(text: &[u8]) -> Option<&[u8]>
    ensures { MatchOption result ((t : List ℕ) → text.now ≢ 46 ∷ t) (λ t. text.now ≡ 46 ∷ t.now) }
{
    match text {
        [b'.', rest @ ..] => Some(rest),
        _ => None,
    }
}

// The number in front of a dot, and what stands behind the dot.
fn behind_number(text: &[u8]) -> Option<(u32, &[u8])>
    ensures { MatchOption result ((g : ℕ) (t : List ℕ) → g < 2 ^ 32 → text.now ≢ spec.dotted g t) (λ r. (r.0 < 2 ^ 32) × (text.now ≡ spec.dotted r.0 r.1.now)) }
{
    match split_number(text) {
        Some((gadget, behind)) => match behind_dot(behind) {
            Some(rest) => Some((gadget, rest)),
            None => None,
        },
        None => None,
    }
}

// The part of a gadget that has a text.
fn part_in(gadget: u32, text: &[u8], order: u32) -> Option<Part>
    ensures { MatchOption result ((p : APart) → p.gadget ≡ gadget → IsPartName order p (gadget_name gadget text.now) → ⊥) (λ p. IsPartName order p (gadget_name gadget text.now)) }
{
    match read_text(text) {
        Some((kind, i, j)) => match indices_of(order, kind, i, j) {
            Some((i, j)) => Some(Part {
                gadget: gadget as usize,
                kind,
                i,
                j,
            }),
            None => None,
        },
        None => None,
    }
}

/// The part of a gadget of an order that has a name.
pub(crate) fn part_of(name: &[u8], order: u32) -> Option<Part>
    ensures { MatchOption result ((p : APart) → IsPartName order p name.now → ⊥) (λ p. IsPartName order p name.now) }
{
    match behind_gadget(name) {
        Some((gadget, text)) => part_in(gadget, text, order),
        None => None,
    }
}
