//! Decimal numbers in names.

ghost use Rattle.std.specs.Prelude.{◌≡◌, ◌≢◌, ◌≤◌, ◌<◌, ◌^◌, ◌++◌, ◌∷◌, ◌↔◌, [], ℕ, List, IsTrue, length, take, drop, slice_index, MatchOption};
ghost use Rattle.std.specs.Fmt.{decimal};
ghost use Rattle.std.specs.Str.Parse.{AllDigits, digits_value};
ghost use Rattle.hpc2_audit.specs.Cuts.{AreBetween, EndsRun, IsBracketed};

// The number that digits spell, None where a byte is no digit or 32 bits do not hold it.
fn value_of(digits: &[u8]) -> Option<u32>
    ensures { MatchOption result (AllDigits 10 digits.now → 2 ^ 32 ≤ digits_value 10 digits.now) (λ n. AllDigits 10 digits.now × (n ≡ digits_value 10 digits.now) × (n < 2 ^ 32)) }
{
    let mut number: u32 = 0;
    for digit in digits {
        if *digit < b'0' || b'9' < *digit {
            return None;
        }
        number = number
            .checked_mul(10)?
            .checked_add(u32::from(*digit - b'0'))?;
    }
    Some(number)
}

// Whether there is a byte, and a zero in front stands alone.
fn is_unpadded(digits: &[u8]) -> bool
    ensures { IsTrue result ↔ ((0 < length digits.now) × (slice_index digits.now 0 ≡ 48 → length digits.now ≡ 1)) }
{
    match digits {
        [] | [b'0', _, ..] => false,
        _ => true,
    }
}

/// The number below 2^32 that is written so in decimals, without a leading zero.
pub(crate) fn number_of(digits: &[u8]) -> Option<u32>
    ensures { MatchOption result ((i : ℕ) → i < 2 ^ 32 → digits.now ≡ decimal i → ⊥) (λ i. (i < 2 ^ 32) × (digits.now ≡ decimal i)) }
{
    if !is_unpadded(digits) {
        return None;
    }
    value_of(digits)
}

/// Where a run of bytes from `low` to `high` ends.
pub(crate) fn run_end(bytes: &[u8], low: u8, high: u8) -> usize
    ensures within { result ≤ length bytes.now }
    ensures run { AreBetween low high (take result bytes.now) }
    ensures ends { EndsRun low high (drop result bytes.now) }
{
    for (i, byte) in bytes.iter().enumerate() {
        if *byte < low || high < *byte {
            return i;
        }
    }
    bytes.len()
}

/// The number below 2^32 that stands in front, and what stands behind its last digit.
pub(crate) fn split_number(bytes: &[u8]) -> Option<(u32, &[u8])>
    ensures { MatchOption result ((i : ℕ) (t : List ℕ) → i < 2 ^ 32 → EndsRun 48 57 t → bytes.now ≡ decimal i ++ t → ⊥) (λ r. (r.0 < 2 ^ 32) × EndsRun 48 57 r.1.now × (bytes.now ≡ decimal r.0 ++ r.1.now)) }
{
    let end = run_end(bytes, b'0', b'9');
    match number_of(&bytes[..end]) {
        Some(number) => Some((number, &bytes[end..])),
        None => None,
    }
}

/// The number below 2^32 in `[3]`.
pub(crate) fn bracketed(bytes: &[u8]) -> Option<u32>
    ensures { MatchOption result ((i : ℕ) → IsBracketed i bytes.now → ⊥) (λ i. IsBracketed i bytes.now) }
{
    match bytes {
        [b'[', inner @ ..] => closed(inner),
        _ => None,
    }
}

// The number below 2^32 in front of a closing bracket.
fn closed(bytes: &[u8]) -> Option<u32>
    ensures { MatchOption result ((i : ℕ) → i < 2 ^ 32 → bytes.now ≡ decimal i ++ 93 ∷ [] → ⊥) (λ i. (i < 2 ^ 32) × (bytes.now ≡ decimal i ++ 93 ∷ [])) }
{
    match split_number(bytes) {
        Some((number, rest)) => {
            if rest == b"]".as_slice() {
                Some(number)
            } else {
                None
            }
        }
        None => None,
    }
}
