// Lists and atoms that are to be written.

/// An atom, or where a list begins or ends.
#[derive(Clone, Copy)]
pub enum Token<'a> {
    /// A list begins.
    Open,
    /// The list ends.
    Close,
    /// A symbol, with its bytes.
    Symbol(&'a [u8]),
    /// A number.
    Number(i64),
    /// A number of at least 0.
    Natural(u64),
}
