//! What a name says of a wire.

ghost use Rattle.std.specs.Prelude.{◌≡◌, ◌<◌, ◌≤◌, ◌^◌, ◌⊎◌, ◌++◌, ◌∷◌, ◌↔◌, [], ℕ, List, IsTrue, MatchOption, codes, length};
ghost use Rattle.std.specs.Fmt.{decimal};
ghost use Rattle.agm_net.specs.Label.{IsBitOf, IsPublicName, IsShareName};
ghost use Rattle.hpc2_audit.specs.Spelled.{HasFront, IsIndexed, IsOther, IsStateBit, Spells};

use crate::numbers::{bracketed, split_number};
use crate::parts::part_of;
use agm_net::Part;

/// What a name says of a wire, whatever the net is.
#[derive(Clone, Copy, Debug, PartialEq, Eq)]
pub enum Spelled {
    /// It doesn't begin with `agm_`.
    OfUser,
    /// `agm_clk`.
    OfClock,
    /// It begins with `agm_`, and is public.
    OfPublic,
    /// A bit of `agm_r`.
    OfRandom,
    /// Of this share, and no part's.
    OfShare(usize),
    /// The name of a part of a gadget.
    OfPart(Part),
    /// It begins with `agm_`, and is none of these.
    OfNothing,
}

// Whether something stands behind a front.
fn has_more(name: &[u8], front: &[u8]) -> bool
    ensures { IsTrue result ↔ HasFront front.now name.now }
{
    match name.strip_prefix(front) {
        Some(rest) => !rest.is_empty(),
        None => false,
    }
}

// Whether there is nothing, or a number in brackets.
fn is_bare_or_bracketed(rest: &[u8]) -> bool
    ensures { IsTrue result ↔ IsBitOf [] rest.now }
{
    rest.is_empty() || bracketed(rest).is_some()
}

// Whether a name is that of a bit of a port.
fn is_bit_of(name: &[u8], port: &[u8]) -> bool
    ensures { IsTrue result ↔ IsBitOf port.now name.now }
{
    match name.strip_prefix(port) {
        Some(rest) => is_bare_or_bracketed(rest),
        None => false,
    }
}

// Whether a name begins with `agm_` and is public.
fn is_public(name: &[u8]) -> bool
    ensures { IsTrue result ↔ IsPublicName name.now }
{
    is_bit_of(name, b"agm_load".as_slice())
        || (is_bit_of(name, b"agm_q_p".as_slice()) || has_more(name, b"agm_p.".as_slice()))
}

// The number in a name that has a front, a number, a mark and something behind it.
fn index_in(name: &[u8], front: &[u8], mark: u8) -> Option<u32>
    requires { (mark < 48) ⊎ (57 < mark) }
    ensures { MatchOption result ((i : ℕ) → IsIndexed front.now mark i name.now → ⊥) (λ i. IsIndexed front.now mark i name.now) }
{
    match name.strip_prefix(front) {
        Some(behind) => index_before(behind, mark),
        None => None,
    }
}

// The number in front of a mark and something behind it.
fn index_before(behind: &[u8], mark: u8) -> Option<u32>
    requires { (mark < 48) ⊎ (57 < mark) }
    ensures { MatchOption result ((i : ℕ) → IsIndexed [] mark i behind.now → ⊥) (λ i. IsIndexed [] mark i behind.now) }
{
    match split_number(behind) {
        Some((index, rest)) => {
            if begins_so(rest, mark) {
                Some(index)
            } else {
                None
            }
        }
        None => None,
    }
}

// Whether a text is a mark and something behind it.
fn begins_so(text: &[u8], mark: u8) -> bool
    ensures { IsTrue result ↔ HasFront (mark ∷ []) text.now }
{
    match text {
        [first, _, ..] => *first == mark,
        _ => false,
    }
}

// The index in a name of a bit of `agm_q_s<i>`.
fn state_index(name: &[u8]) -> Option<u32>
    ensures { MatchOption result ((i : ℕ) → IsStateBit i name.now → ⊥) (λ i. IsStateBit i name.now) }
{
    match name.strip_prefix(b"agm_q_s".as_slice()) {
        Some(behind) => state_number(behind),
        None => None,
    }
}

// The number of which nothing stands behind, or a number in brackets.
fn state_number(behind: &[u8]) -> Option<u32>
    ensures { MatchOption result ((i : ℕ) → i < 2 ^ 32 → IsBitOf (decimal i) behind.now → ⊥) (λ i. (i < 2 ^ 32) × IsBitOf (decimal i) behind.now) }
{
    match split_number(behind) {
        Some((index, rest)) => {
            if is_bare_or_bracketed(rest) {
                Some(index)
            } else {
                None
            }
        }
        None => None,
    }
}

// The share of a name that is no part's.
fn share_of(name: &[u8]) -> Option<u32>
    ensures { MatchOption result ((i : ℕ) → IsShareName i name.now → ⊥) (λ i. IsShareName i name.now) }
{
    if let Some(index) = index_in(name, b"agm_s".as_slice(), b'_') {
        return Some(index);
    }
    if let Some(index) = index_in(name, b"agm_d".as_slice(), b'.') {
        return Some(index);
    }
    state_index(name)
}

// What a name says that says nothing else than which part it is.
fn part_or_nothing(name: &[u8], order: u32) -> Spelled
    requires { IsOther order name.now }
    ensures { Spells order name.now result }
{
    match part_of(name, order) {
        Some(part) => Spelled::OfPart(part),
        None => Spelled::OfNothing,
    }
}

/// What a name says of a wire of a net of this order. Takes time in the length of the name, and for a bit of a gadget's `r` in the
/// order too, and no memory.
pub fn read_label(name: &[u8], order: u32) -> Spelled
    ensures { Spells order name.now result }
{
    if !name.starts_with(b"agm_".as_slice()) {
        return Spelled::OfUser;
    }
    if name == b"agm_clk".as_slice() {
        return Spelled::OfClock;
    }
    if is_public(name) {
        return Spelled::OfPublic;
    }
    if is_bit_of(name, b"agm_r".as_slice()) {
        return Spelled::OfRandom;
    }
    match share_of(name) {
        Some(index) => {
            if index <= order {
                Spelled::OfShare(index as usize)
            } else {
                Spelled::OfNothing
            }
        }
        None => part_or_nothing(name, order),
    }
}

/// A law: a name says one thing in a net of an order, so that what `read_label` answers is all that it says.
pub fn one_reading()
    ensures { (order : ℕ) (name : List ℕ) (a b : Spelled) →
        Spells order name a → Spells order name b → a ≡ b }
{}
