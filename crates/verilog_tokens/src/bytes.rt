ghost use Rattle.std.specs.Prelude.{◌≡◌};
ghost use Rattle.std.specs.List.{list_any};
ghost use Rattle.std.specs.Str.{bytes_eq};
ghost use Rattle.agm_net.specs.Writable.{is_graphic as graphic};
ghost use Rattle.small_text.specs.Bytes as small;
ghost use Rattle.small_text.specs.First.{run};
ghost use Rattle.verilog_tokens.specs.Bytes as spec;

/// The words that are no identifiers.
const KEY_WORDS: [&str; 29] = [
    "module",
    "endmodule",
    "input",
    "output",
    "inout",
    "wire",
    "assign",
    "reg",
    "tri",
    "supply0",
    "supply1",
    "parameter",
    "localparam",
    "defparam",
    "always",
    "initial",
    "generate",
    "function",
    "task",
    "specify",
    "signed",
    "and",
    "nand",
    "or",
    "nor",
    "xor",
    "xnor",
    "not",
    "buf",
];

/// The directives whose lines are read over.
const DIRECTIVES: [&str; 5] = [
    "timescale",
    "default_nettype",
    "celldefine",
    "endcelldefine",
    "resetall",
];

// Whether a word is among the words.
fn is_among(words: &[&str], word: &[u8]) -> bool
    ensures { result ≡ list_any (λ w. bytes_eq w.now word.now) words.now }
{
    words.iter().any(|w| w.as_bytes() == word)
}

// Whether a word may be among the words that are no identifiers: those are short and begin with a small letter.
fn may_be_key(word: &[u8]) -> bool
    ensures { result ≡ spec.may_be_key word.now }
{
    match word {
        [b, ..] => b'a' <= *b && *b <= b'x' && word.len() <= 10,
        [] => false,
    }
}

// Whether a word is no identifier.
pub(crate) fn is_key(word: &[u8]) -> bool
    ensures { result ≡ small.is_key word.now }
{
    if !may_be_key(word) {
        return false;
    }
    let words: [&str; 29] = KEY_WORDS;
    is_among(words.as_slice(), word)
}

// Whether the line of a directive is read over.
pub(crate) fn is_directive(word: &[u8]) -> bool
    ensures { result ≡ spec.is_directive word.now }
{
    let words: [&str; 5] = DIRECTIVES;
    is_among(words.as_slice(), word)
}

// Whether a byte is a letter or `_`.
pub(crate) fn is_letter(b: u8) -> bool
    ensures { result ≡ small.is_letter b }
{
    b'a' <= b && b <= b'z' || (b'A' <= b && b <= b'Z' || b == b'_')
}

// Whether a byte is a digit of base ten.
pub(crate) fn is_digit(b: u8) -> bool
    ensures { result ≡ small.is_digit b }
{
    b'0' <= b && b <= b'9'
}

// Whether a byte may stand in a simple identifier.
fn is_word(b: u8) -> bool
    ensures { result ≡ small.is_word b }
{
    is_letter(b) || (is_digit(b) || b == b'$')
}

// Whether a byte may stand in an escaped identifier.
fn is_graphic(b: u8) -> bool
    ensures { result ≡ graphic b }
{
    33 <= b && b <= 126
}

// Whether a byte may stand in a string by itself.
pub(crate) fn is_text(b: u8) -> bool
    ensures { result ≡ small.is_text b }
{
    32 <= b && b <= 126 && (b != b'"' && b != b'\\')
}

// Whether a byte may stand behind a `\` in a string.
pub(crate) fn is_printed(b: u8) -> bool
    ensures { result ≡ spec.is_printed b }
{
    32 <= b && b <= 126
}

// Whether a byte is white space.
pub(crate) fn is_blank(b: u8) -> bool
    ensures { result ≡ small.is_blank b }
{
    b == b' ' || (9 <= b && b <= 10 || 12 <= b && b <= 13)
}

// Whether a byte is one of `( ) [ ] { } , ; : . =`.
pub(crate) fn is_symbol(b: u8) -> bool
    ensures { result ≡ spec.is_symbol b }
{
    b == b'('
        || b == b')'
        || b == b'['
        || b == b']'
        || b == b','
        || b == b';'
        || b == b':'
        || b == b'.'
        || b == b'='
        || (b == b'{' || b == b'}')
}

// Whether a byte stands before the end of the line.
fn is_in_line(b: u8) -> bool
    ensures { result ≡ spec.is_in_line b }
{
    b != b'\n'
}

// Whether a byte may stand in a line that is read over.
fn is_in_directive(b: u8) -> bool
    ensures { result ≡ spec.is_in_directive b }
{
    b != b'\n' && b <= 126
}

// How many bytes of a simple identifier stand in front.
pub(crate) fn word_run(bytes: &[u8]) -> usize
    ensures { result ≡ run small.is_word bytes.now }
{
    bytes.iter().take_while(|b| is_word(**b)).count()
}

// How many digits stand in front.
pub(crate) fn digit_run(bytes: &[u8]) -> usize
    ensures { result ≡ run small.is_digit bytes.now }
{
    bytes.iter().take_while(|b| is_digit(**b)).count()
}

// How many bytes of an escaped identifier stand in front.
pub(crate) fn graphic_run(bytes: &[u8]) -> usize
    ensures { result ≡ run graphic bytes.now }
{
    bytes.iter().take_while(|b| is_graphic(**b)).count()
}

// How many bytes stand before the end of the line.
pub(crate) fn line_run(bytes: &[u8]) -> usize
    ensures { result ≡ run spec.is_in_line bytes.now }
{
    bytes.iter().take_while(|b| is_in_line(**b)).count()
}

// How many bytes of a line that is read over stand in front.
pub(crate) fn directive_run(bytes: &[u8]) -> usize
    ensures { result ≡ run spec.is_in_directive bytes.now }
{
    bytes.iter().take_while(|b| is_in_directive(**b)).count()
}
