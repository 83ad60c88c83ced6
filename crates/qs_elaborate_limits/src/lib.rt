//! The limits of a source are limits of its core: of functions, parameters, arguments, words of
//! code, values that are held at once, nesting, bytes and costs; and main returns a value. Laws;
//! nothing here runs.
#![tactic(auto)]

mod laws;

pub use laws::{
    arguments_are_few, caps_are_kept, code_is_small, data_bytes_are_few, functions_are_few,
    held_values_are_few, main_parameters_are_few, main_returns, parameters_are_few,
    placed_bytes_are_few, statements_nest_little, values_are_limited,
};
