/// A part of a function text.
#[derive(Debug, Drop)]
pub(crate) enum Part<'t> {
    /// Letters, digits, `_`, `[`, `]` and `.`, not beginning with a digit.
    Name(&'t [u8]),
    /// One of `0 1 ! ' ^ * & + | ( )`.
    Sign(u8),
}
