// What stands in memory when a run begins (C11 5.1.2, 6.4.5p6, 6.7.9).

/// A part of what a block holds.
#[derive(Drop)]
pub enum Datum {
    /// bytes
    Bytes(Vec<u8>),
    /// so many null pointers
    Nulls(u32),
    /// a pointer to the first byte of the static block with this number
    Pointer(u32),
}

/// A file-scope variable or a text.
#[derive(Drop)]
pub struct StaticBlock {
    /// what it holds, in the order of its bytes
    pub contents: Vec<Datum>,
    /// whether it may be written; texts may not
    pub is_writable: bool,
}
