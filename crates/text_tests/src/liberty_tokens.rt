//! Tokens of Liberty texts.

use liberty_text::{Token, front, is_at_end, place, unbroken};
use std::alloc::Global;
use std::test::Fail;
use test_netlists::words::put_name;

// A text, its tokens, and the place where they end.
const CASES: [(&str, &str, usize); 22] = [
    ("", "", 0),
    (" library (x) {\r\n}\n", "w:library ( w:x ) { } ", 18),
    ("a:b;c,d", "w:a : w:b ; w:c , w:d ", 7),
    ("a[3]'&!x.y/*z", "w:a[3]'&!x.y/*z ", 13),
    ("a/* b */c", "w:a/* w:b w:*/c ", 9),
    ("a /* b */c", "w:a w:c ", 10),
    ("/* ** * / */a /**/", "w:a ", 18),
    ("a /* b", "w:a ", 2),
    ("/", "w:/ ", 1),
    ("\"a;{\" b", "t:a;{ w:b ", 7),
    ("\"\"", "t: ", 2),
    ("\"a\\\"b", "t:a\\ w:b ", 5),
    ("a \"b", "w:a ", 2),
    ("\"a\\\nb\"", "t:a b ", 6),
    ("\"a\\\r\nb\\\rc\"", "t:a b\\\rc ", 10),
    ("\"\\\n\\\n\"", "t:   ", 6),
    ("a\\\nb", "w:a w:b ", 4),
    ("a\\\\\nb", "w:a\\ w:b ", 5),
    ("\\\r\na \\ b", "w:a w:\\ w:b ", 8),
    ("a\\\rb", "w:a\\ w:b ", 4),
    ("a b\x7f", "w:a w:b ", 3),
    ("\x0c\x0b", "", 1),
];

// Adds a token as a word.
fn put_token(alloc: Global, text: &mut String, token: &Token<'_>) -> Result<(), Fail> {
    match token {
        Token::Word(word) => {
            text.push_str("w:")?;
            put_name(text, word)?;
        }
        Token::Text(inner) => {
            text.push_str("t:")?;
            put_name(text, unbroken(alloc, inner)?.as_slice())?;
        }
        Token::Symbol(byte) => text.push(char::from(*byte))?,
    }
    text.push(' ')?;
    Ok(())
}

// The tokens up to the end or to a wrong piece, and where they end.
fn words(alloc: Global, bytes: &[u8]) -> Result<(String, usize), Fail> {
    let mut words = String::new(alloc);
    let mut rest = bytes;
    for _ in 0..bytes.len() {
        match front(rest) {
            Some((token, behind)) => {
                put_token(alloc, &mut words, &token)?;
                rest = behind;
            }
            None => break,
        }
    }
    let left = if is_at_end(rest) { 0 } else { place(rest) };
    Ok((words, bytes.len().saturating_sub(left)))
}

// Fails at the first text that is cut otherwise.
fn cut_all(alloc: Global, cases: &[(&str, &str, usize)]) -> Result<(), Fail> {
    for (text, wanted, end) in cases {
        let (found, place) = words(alloc, text.as_bytes())?;
        if found.as_str() != *wanted || place != *end {
            return Err(Fail::from(*text));
        }
    }
    Ok(())
}

#[test]
fn cuts_texts(rt: HostRuntime) -> Result<(), Fail> {
    cut_all(rt.alloc(), &CASES)
}
