/// A token as it stands in a text.
#[derive(Clone, Copy, Debug)]
pub enum Lexeme<'t> {
    /// A simple or an escaped identifier, without the `\` of the latter.
    Name(&'t [u8]),
    /// A word that is no identifier.
    Key(&'t [u8]),
    /// Decimal digits.
    Number(&'t [u8]),
    /// A decimal constant: its size and its value.
    Decimal(u32, u128),
    /// Another constant: its size, how many bits a digit stands for, and its digits.
    Based(u32, u32, &'t [u8]),
    /// A string, without its quotes.
    Text(&'t [u8]),
    /// One of `( ) [ ] { } , ; : . =`.
    Symbol(u8),
    /// `(*`
    Open,
    /// `*)`
    Close,
}
