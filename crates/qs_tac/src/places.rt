// Where the values of a function stand.

/// Where a value stands.
#[derive(Clone, Copy, Debug)]
pub enum Place {
    /// in the slot with this number of the function's frame
    Slot(u32),
    /// in the register with this number
    Register(u32),
}

/// A place for each temporary of a function, and the certificate that they keep its values.
#[derive(Drop)]
pub struct Places {
    /// by the temporary's number
    pub at: Vec<Place>,
    /// the temporaries that are needed after each instruction, by its index
    pub needed: Vec<Vec<u32>>,
}
