// What derivations bound.

/// What the entries of a file bound.
#[derive(Clone, Copy)]
pub enum Resource {
    /// the stack that runs take: a return gives back what its call took
    Stack,
    /// the calls that runs make: a return gives nothing back
    Calls,
}
