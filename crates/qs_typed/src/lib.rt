//! The typed tree of a unit in code: names resolved, lvalues as such, conversions explicit, sizes
//! and offsets as numbers, and what stands in memory when a run begins.
#![tactic(auto)]

mod functions;
mod laws;
mod unit;
mod units;

pub use functions::{function, named_scalar};
pub use laws::{
    expressions_are_typed, functions_are_typed, statements_are_typed, unit_blocks_are_typed,
    unit_functions_are_typed, unit_variables_are_known,
};
pub use unit::{typed_program, variable_nodes};
