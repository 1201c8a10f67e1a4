ghost use Rattle.std.specs.Prelude.{◌≡◌};
ghost use Rattle.liberty_text.specs.Bytes as spec;
ghost use Rattle.liberty_text.specs.First.{run};

// Whether a byte is white space.
pub(crate) fn is_blank(b: u8) -> bool
    ensures { result ≡ spec.is_blank b }
{
    b == b' ' || (9 <= b && b <= 10 || 12 <= b && b <= 13)
}

// Whether a byte is one of `( ) , : ; { }`.
pub(crate) fn is_symbol(b: u8) -> bool
    ensures { result ≡ spec.is_symbol b }
{
    b == b'(' || b == b')' || b == b',' || b == b':' || b == b';' || b == b'{' || b == b'}'
}

// Whether a byte may stand in a word.
fn is_word(b: u8) -> bool
    ensures { result ≡ spec.is_word b }
{
    33 <= b && b <= 126 && (b != b'"' && !is_symbol(b))
}

// How many bytes of a word stand in front.
pub(crate) fn word_bytes(bytes: &[u8]) -> usize
    ensures { result ≡ run spec.is_word bytes.now }
{
    bytes.iter().take_while(|b| is_word(**b)).count()
}

// How many bytes of a string stand in front.
pub(crate) fn text_bytes(bytes: &[u8]) -> usize
    ensures { result ≡ run spec.is_text bytes.now }
{
    bytes.iter().take_while(|b| **b != b'"').count()
}

// How long the line end in front is, 0 where there is none.
pub(crate) fn line_end(bytes: &[u8]) -> usize
    ensures { result ≡ spec.line_end bytes.now }
{
    match bytes {
        [b'\n', ..] => 1,
        [b'\r', b'\n', ..] => 2,
        _ => 0,
    }
}

// Whether `\` is the last byte.
pub(crate) fn ends_in_backslash(bytes: &[u8]) -> bool
    ensures { result ≡ spec.ends 92 bytes.now }
{
    !bytes.is_empty() && bytes[bytes.len() - 1] == b'\\'
}
