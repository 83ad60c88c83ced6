// Nodes: lists and atoms with their places.

/// A number, a symbol or a list.
#[derive(Clone, Copy, PartialEq, Eq)]
pub enum Item {
    /// A number.
    Number(i64),
    /// A symbol of so many bytes; they stand at its place in the text.
    Symbol(u32),
    /// A list. The nodes of its parts follow it.
    List {
        /// How many parts it has.
        parts: u32,
        /// How many nodes these are, with everything in them.
        nodes: u32,
    },
}

/// An atom or a list, with the number of its first byte.
#[derive(Clone, Copy, PartialEq, Eq)]
pub struct Node {
    /// The number of its first byte in the text, from 0.
    pub at: u32,
    /// What stands there.
    pub item: Item,
}
