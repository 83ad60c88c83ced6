//! Tasks that preempt each other on one stack: what is promised of them.
#![tactic(auto)]

mod laws;

pub use laws::tasks_are_safe;
