//! From core to linear code: what each form becomes, and that it does what it did.
#![tactic(auto)]

mod bodies;
mod choices;
mod data;
mod functions;
mod laws;
mod stmt_emission;
mod stmt_planning;
mod stmt_plans;
mod stmt_scratch;
mod stmt_sizes;
mod threads;
mod unit;
mod ways;

pub use data::blank_size;
pub use functions::lower_function;
pub use laws::{lowered_fits, lowered_sizes_are_kept, lowering_follows};
pub use unit::lower;
