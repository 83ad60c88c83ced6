//! Tasks of a source that preempt each other on one stack: what is promised of them, by the meaning
//! of the source.
#![tactic(auto)]

mod laws;

pub use laws::source_tasks_are_safe;
