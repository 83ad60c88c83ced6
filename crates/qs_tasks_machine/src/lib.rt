//! Runs of tasks on the machine.
#![tactic(auto)]

mod contexts;
mod hart;
mod report;
mod running;
mod starting;

pub use report::{TasksEnd, TasksReport};
pub use running::run_tasks;
