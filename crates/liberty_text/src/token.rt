/// A token of a Liberty text, as a part of the text.
#[derive(Debug, Drop)]
pub enum Token<'t> {
    /// One or more bytes 33 to 126 other than `" , ; : ( ) { }`.
    Word(&'t [u8]),
    /// What stands between the quotes of a string. Its value is `unbroken` of it.
    Text(&'t [u8]),
    /// One of `( ) , : ; { }`.
    Symbol(u8),
}
