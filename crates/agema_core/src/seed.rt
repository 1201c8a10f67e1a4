//! Seeds as words of a command.

ghost use Rattle.std.specs.Prelude.{◌≡◌};
ghost use Rattle.hex.specs.Hex.{encode_lower};
ghost use Rattle.agema_core.specs.Seed as spec;

use hex::{FromHex, encode_to_slice};

// The digits of a seed.
fn digits_of(seed: &[u8; 32]) -> [u8; 64]
    ensures { result ≡ encode_lower seed.now }
{
    let mut digits = [0u8; 64];
    let _ = encode_to_slice(seed.as_slice(), &mut digits);
    digits
}

// The same seed, if these are its digits.
fn if_spelled(seed: [u8; 32], word: &[u8]) -> Option<[u8; 32]>
    ensures { result ≡ spec.if_spelled seed word.now }
{
    if digits_of(&seed).as_slice() == word {
        Some(seed)
    } else {
        None
    }
}

/// The seed that a word spells: 64 hexadecimal digits with small letters.
pub(crate) fn read_seed(word: &str) -> Option<[u8; 32]>
    ensures { result ≡ spec.seed_of word.now }
{
    match <[u8; 32] as FromHex>::from_hex(word) {
        Ok(seed) => if_spelled(seed, word.as_bytes()),
        Err(_) => None,
    }
}
