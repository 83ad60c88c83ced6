// What core names by numbers.

/// A block whose address is taken.
#[derive(Clone, Copy)]
pub enum BlockId {
    /// the block with this number among those that the call makes
    Local(u32),
    /// the block with this number among the unit's data
    Data(u32),
}

/// What an assignment gives a value.
#[derive(Clone, Copy)]
pub enum Target {
    /// the variable with this number
    Variable(u32),
    /// the temporary with this number
    Temporary(u32),
}
