// Frames.

/// The frame of a function's call. Offsets are from x2, in bytes.
#[derive(Clone, Copy)]
pub struct Frame {
    /// its bytes, a positive multiple of 16
    pub cost: u32,
    /// the bytes from x2 on for the arguments past the eighth that its calls pass
    pub outgoing: u32,
    /// the offset of slot 0
    pub slots: u32,
    /// the offset of the first placed block; the further blocks lie above it
    pub placed: u32,
}
