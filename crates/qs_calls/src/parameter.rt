// Where arguments go.

use qs_memory::Scalar;

/// Where a call puts the argument for a parameter (C11 6.5.2.2p4).
#[derive(Clone, Copy)]
pub enum Parameter {
    /// into the variable with this number
    Plain(u32),
    /// into the block with this number among the call's, as a value of this type
    Placed(u32, Scalar),
}
