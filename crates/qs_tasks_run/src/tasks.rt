// Tasks and arrivals.
use qs_base::{FnId, Name};

/// A function that activations run, with a priority, and an input that they take one after the
/// other.
#[derive(Drop)]
pub struct Task {
    /// The function.
    pub function: FnId,
    /// Its name.
    pub name: Name,
    /// The priority; the greater comes first.
    pub priority: u8,
    /// The bytes of the input.
    pub input: Vec<u8>,
}

/// An activation of a task begins, or waits to begin.
#[derive(Clone, Copy)]
pub struct Arrival {
    /// How many instructions of the whole run come before it.
    pub at: u64,
    /// The number of the task in the list.
    pub task: u32,
}
