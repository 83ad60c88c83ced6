// What a type takes in memory.

/// The size and the alignment of a type in bytes (C11 6.5.3.4, 6.2.8).
#[derive(Clone, Copy)]
pub struct Extent {
    /// How many bytes an object takes.
    pub size: u32,
    /// The number whose multiples its addresses are.
    pub alignment: u32,
}
