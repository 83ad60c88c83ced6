//! The law that a run leaves alone what it doesn't touch: it is the same where the rest of memory
//! is hidden, and leaves the rest as it was.
#![tactic(auto)]

mod laws;

pub use laws::hiding_keeps_runs;
