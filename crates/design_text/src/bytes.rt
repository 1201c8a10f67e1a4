ghost use Rattle.std.specs.Prelude.{◌≡◌};
ghost use Rattle.std.specs.List.{list_any};
ghost use Rattle.std.specs.Str.{bytes_eq};
ghost use Rattle.small_text.specs.Bytes as spec;

/// The words that are no identifiers.
const KEY_WORDS: [&str; 29] = [
    "module",
    "endmodule",
    "input",
    "output",
    "inout",
    "wire",
    "assign",
    "reg",
    "tri",
    "supply0",
    "supply1",
    "parameter",
    "localparam",
    "defparam",
    "always",
    "initial",
    "generate",
    "function",
    "task",
    "specify",
    "signed",
    "and",
    "nand",
    "or",
    "nor",
    "xor",
    "xnor",
    "not",
    "buf",
];

// Whether a word is among the words.
fn is_among(words: &[&str], word: &[u8]) -> bool
    ensures { result ≡ list_any (λ w. bytes_eq w.now word.now) words.now }
{
    words.iter().any(|w| w.as_bytes() == word)
}

// Whether a word is no identifier.
pub(crate) fn is_key(word: &[u8]) -> bool
    ensures { result ≡ spec.is_key word.now }
{
    let words: [&str; 29] = KEY_WORDS;
    is_among(words.as_slice(), word)
}

// Whether a byte is a letter or `_`.
pub(crate) fn is_letter(b: u8) -> bool
    ensures { result ≡ spec.is_letter b }
{
    b'a' <= b && b <= b'z' || (b'A' <= b && b <= b'Z' || b == b'_')
}

// Whether a byte is a digit of base ten.
fn is_digit(b: u8) -> bool
    ensures { result ≡ spec.is_digit b }
{
    b'0' <= b && b <= b'9'
}

// Whether a byte may stand in a simple identifier.
pub(crate) fn is_word(b: u8) -> bool
    ensures { result ≡ spec.is_word b }
{
    is_letter(b) || (is_digit(b) || b == b'$')
}
