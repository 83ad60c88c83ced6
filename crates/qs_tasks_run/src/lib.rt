//! Tasks with priorities that share one hart and one stack, and what their runs are.
#![tactic(auto)]

mod tasks;

pub use tasks::{Arrival, Task};
