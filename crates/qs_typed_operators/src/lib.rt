//! What operators, assignments and steps by one make of the forms of their operands.
#![tactic(auto)]

mod assignments;
mod operations;
mod operators;

pub use assignments::{assign_form, plain_form, step_form};
pub use operators::{
    binary_form, cast_form, comma_form, conditional_form, object_at, size_form, subscript_form,
    unary_form,
};
