// The counts of a source that have limits.

/// A count of a source that has a limit.
#[derive(Clone, Copy, Debug)]
pub enum LimitKind {
    /// Nodes.
    Nodes,
    /// Names of functions.
    Functions,
    /// Parameters of one function.
    Parameters,
    /// Bytes of data.
    Globals,
    /// Bytes of one function's placed locals and parameters.
    Locals,
}
