//! Values as words of a line, by which tests tell what was found.

use agm_bits::Name;
use std::alloc::{AllocError, Global};

/// Adds a name, a character for each byte.
///
/// # Errors
///
/// `AllocError` where memory runs out.
pub fn put_name(text: &mut String, name: &[u8]) -> Result<(), AllocError> {
    for byte in name {
        text.push(char::from(*byte))?;
    }
    Ok(())
}

/// Adds names with blanks between them.
///
/// # Errors
///
/// `AllocError` where memory runs out.
pub fn put_names(text: &mut String, names: &[Name]) -> Result<(), AllocError> {
    let mut is_first = true;
    for name in names {
        if !is_first {
            text.push(' ')?;
        }
        put_name(text, name.as_slice())?;
        is_first = false;
    }
    Ok(())
}

/// Adds a number in base 10.
///
/// # Errors
///
/// `AllocError` where memory runs out.
pub fn put_number(alloc: Global, text: &mut String, number: u128) -> Result<(), AllocError> {
    let digits = format!(in alloc; "{number}")?;
    text.push_str(digits.as_str())
}

/// A word with a name behind it.
///
/// # Errors
///
/// `AllocError` where memory runs out.
pub fn worded(alloc: Global, word: &str, name: &[u8]) -> Result<String, AllocError> {
    let mut text = String::from_str(alloc, word)?;
    text.push(' ')?;
    put_name(&mut text, name)?;
    Ok(text)
}
