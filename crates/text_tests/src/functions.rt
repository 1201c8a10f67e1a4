//! Functions of cells.

use cell_function::{Function, read_function};
use std::alloc::{AllocError, Global};
use std::test::Fail;
use test_netlists::words::put_name;

/// A text, and its function with each operator in front of its operands; `-` where it spells none.
const CASES: [(&str, &str); 39] = [
    ("A", "A"),
    (" A\t\r\n", "A"),
    ("0", "0"),
    ("((1))", "1"),
    ("!A", "!A"),
    ("A'", "!A"),
    ("!!A", "!!A"),
    ("A''", "!!A"),
    ("!A'", "!!A"),
    ("! A '", "!!A"),
    ("A & B", "&AB"),
    ("A*B", "&AB"),
    ("A B", "&AB"),
    ("A^B", "^AB"),
    ("A+B", "|AB"),
    ("A | B", "|AB"),
    ("A+B C^D'", "|A&B^C!D"),
    ("A^B&C|D", "|&^ABCD"),
    ("A B*C&D", "&&&ABCD"),
    ("A|B+C", "||ABC"),
    ("(A+B)(C)!D", "&&|ABC!D"),
    ("10", "&10"),
    ("1A", "&1A"),
    ("A1[0].b_ 0", "&A1[0].b_0"),
    ("", "-"),
    (" ", "-"),
    ("()", "-"),
    ("(A", "-"),
    ("A)", "-"),
    ("A +", "-"),
    ("+ A", "-"),
    ("A & & B", "-"),
    ("A ^ ^ B", "-"),
    ("!", "-"),
    ("'A", "-"),
    ("2", "-"),
    ("A2+3", "-"),
    ("A/**/", "-"),
    ("A\u{e9}", "-"),
];

// Adds a function with each operator in front of its operands.
fn put_function(text: &mut String, function: &Function) -> Result<(), AllocError> {
    match function {
        Function::Constant(false) => text.push('0'),
        Function::Constant(true) => text.push('1'),
        Function::Pin(pin) => put_name(text, pin.as_slice()),
        Function::Not(x) => {
            text.push('!')?;
            put_function(text, x)
        }
        Function::And(x, y) => {
            text.push('&')?;
            put_function(text, x)?;
            put_function(text, y)
        }
        Function::Or(x, y) => {
            text.push('|')?;
            put_function(text, x)?;
            put_function(text, y)
        }
        Function::Xor(x, y) => {
            text.push('^')?;
            put_function(text, x)?;
            put_function(text, y)
        }
    }
}

// The function of a text as a word, `-` where it spells none.
fn told(alloc: Global, bytes: &[u8]) -> Result<String, Fail> {
    let mut text = String::new(alloc);
    match read_function(alloc, bytes)? {
        Some(function) => put_function(&mut text, &function)?,
        None => text.push('-')?,
    }
    Ok(text)
}

// Fails at the first text that is read otherwise.
fn read_all(alloc: Global, cases: &[(&str, &str)]) -> Result<(), Fail> {
    for (text, wanted) in cases {
        if told(alloc, text.as_bytes())?.as_str() != *wanted {
            return Err(Fail::from(*text));
        }
    }
    Ok(())
}

#[test]
fn reads_functions(rt: HostRuntime) -> Result<(), Fail> {
    read_all(rt.alloc(), &CASES)
}

#[test]
fn refuses_long_texts(rt: HostRuntime) -> Result<(), Fail> {
    for sign in [b'!', b'('] {
        let long = vec![in rt.alloc(); sign; 1024]?;
        assert!(rt; told(rt.alloc(), long.as_slice())?.as_str() == "-");
    }
    Ok(())
}
