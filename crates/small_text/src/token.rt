use agm_bits::Name;

/// A token of a small text.
#[derive(Debug, Drop)]
pub enum Token {
    /// A simple or an escaped identifier, without the `\` of the latter.
    Name(Name),
    /// A word that is no identifier.
    Key(Name),
    /// A decimal number.
    Number(u32),
    /// The constant `1'b0` or `1'b1`.
    Constant(bool),
    /// A string, without its quotes.
    Text(Name),
    /// One of `( ) [ ] , ; : . =`.
    Symbol(u8),
    /// `(*`
    Open,
    /// `*)`
    Close,
}
