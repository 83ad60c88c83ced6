//! The machine that programs run on: one hart of RV32IM over code, data and a stack of a fixed
//! size, seen by its definitions in specs/ (RISC-V Unprivileged ISA 20191213, chapters 2 and 7).
#![tactic(auto)]

mod answers;
mod fetching;
mod laws;
mod loading;
mod machine;
mod memory;
mod operations;
mod pages;
mod parts;
mod regions;
mod registers;
mod running;
mod stepping;

pub use answers::{Cause, RunEnd, StepResult};
pub use laws::steps_keep_states;
pub use loading::{LoadFault, load};
pub use machine::Machine;
pub use regions::STACK_LIMIT;
