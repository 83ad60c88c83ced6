//! Which variables of file scope tasks touch, and what follows for their runs.
#![tactic(auto)]

mod laws;

pub use laws::{isolated_reaches_are_apart, tasks_run_alone, tasks_stay_in_reach};
