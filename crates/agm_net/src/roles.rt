//! The role of a port, read from its name.

ghost use Rattle.std.specs.Prelude.{◌≡◌, ◌≢◌, ◌==◌, ◌<◌, ◌≤◌, ◌^◌, ◌++◌, ◌∷◌, ◌↔◌, ℕ, List, IsTrue, length, position, slice_index, MatchOption};
ghost use Rattle.std.specs.Fmt.{decimal};
ghost use Rattle.std.specs.List.{AllByRecursion};
ghost use Rattle.std.specs.Str.Parse.{AllDigits, digits_value};
ghost use Rattle.agm_net.specs.Role.{HasRole, share_name, state_name};

use crate::Role;

// The number that digits spell, None where a byte is no digit or 32 bits do not hold it.
fn number(digits: &[u8]) -> Option<u32>
    ensures { MatchOption result (AllDigits 10 digits.now → 2 ^ 32 ≤ digits_value 10 digits.now) (λ n. AllDigits 10 digits.now × (n ≡ digits_value 10 digits.now) × (n < 2 ^ 32)) }
{
    let mut number: u32 = 0;
    for digit in digits {
        if *digit < b'0' || b'9' < *digit {
            return None;
        }
        number = number
            .checked_mul(10)?
            .checked_add(u32::from(*digit - b'0'))?;
    }
    Some(number)
}

// Whether there is a byte, and a zero in front stands alone.
fn is_unpadded(digits: &[u8]) -> bool
    ensures { IsTrue result ↔ ((0 < length digits.now) × (slice_index digits.now 0 ≡ 48 → length digits.now ≡ 1)) }
{
    match digits {
        [] | [b'0', _, ..] => false,
        _ => true,
    }
}

// The number that is written so in decimals, without a leading zero.
fn index_of(digits: &[u8]) -> Option<u32>
    ensures { MatchOption result ((i : ℕ) → i < 2 ^ 32 → digits.now ≡ decimal i → ⊥) (λ i. digits.now ≡ decimal i) }
{
    if !is_unpadded(digits) {
        return None;
    }
    number(digits)
}

// The place of the first `_`.
fn first_line(bytes: &[u8]) -> Option<usize>
    ensures { result ≡ position (λ b. b == 95) bytes.now }
{
    bytes.iter().position(|b| *b == b'_')
}

// What stands before the first `_`, where something stands behind it.
fn before_line(bytes: &[u8]) -> Option<&[u8]>
    ensures { MatchOption result ((front rest : List ℕ) → AllByRecursion (λ c. c ≢ 95) front → 0 < length rest → bytes.now ≡ front ++ 95 ∷ rest → ⊥) (λ front. AllByRecursion (λ c. c ≢ 95) front.now × (rest : List ℕ) × (0 < length rest) × (bytes.now ≡ front.now ++ 95 ∷ rest)) }
{
    let Some(end) = first_line(bytes) else {
        return None;
    };
    if end + 1 == bytes.len() {
        return None;
    }
    Some(&bytes[..end])
}

// The index in a name `agm_s<i>_` and a rest.
fn share_index(name: &[u8]) -> Option<u32>
    ensures { MatchOption result ((i : ℕ) (rest : List ℕ) → i < 2 ^ 32 → 0 < length rest → name.now ≡ share_name i rest → ⊥) (λ i. (rest : List ℕ) × (0 < length rest) × (name.now ≡ share_name i rest)) }
{
    let behind = name.strip_prefix(b"agm_s".as_slice())?;
    match before_line(behind) {
        Some(digits) => index_of(digits),
        None => None,
    }
}

// The index in a name `agm_q_s<i>`.
fn state_index(name: &[u8]) -> Option<u32>
    ensures { MatchOption result ((i : ℕ) → i < 2 ^ 32 → name.now ≡ state_name i → ⊥) (λ i. name.now ≡ state_name i) }
{
    index_of(name.strip_prefix(b"agm_q_s".as_slice())?)
}

// The role of a port of this name.
pub(crate) fn role_of(name: &[u8]) -> Role
    ensures { HasRole name.now result }
{
    if name == b"agm_r".as_slice() {
        return Role::Random;
    }
    if name == b"agm_clk".as_slice() {
        return Role::Clock;
    }
    if let Some(index) = share_index(name) {
        return Role::Share(index);
    }
    match state_index(name) {
        Some(index) => Role::Share(index),
        None => Role::Public,
    }
}

/// A name has one role only.
pub fn one_role()
    ensures { (name : List ℕ) (r s : Role) → HasRole name r → HasRole name s → r ≡ s }
{}
