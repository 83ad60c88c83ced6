//! What a program means: the typed tree of a unit, the memory in which it begins, and its runs.
//! Definitions and their laws; nothing here runs.
#![tactic(auto)]

mod laws;

pub use laws::{
    bodies_stay_in_range, calls_follow, calls_stay_in_range, cases_have_values,
    elsewhere_is_the_meaning, expressions_have_types, functions_typed, initial_memory_is_ready,
    initial_memory_is_sound, main_grows, main_undefined_in_nine_cases, no_other_place,
    read_is_as_read, runs_grow, runs_leave_sound, steps_on_types_are_defined, typed_data_is_whole,
    typed_units_fit, typed_where_types, undefined_in_nine_cases, units_typed,
};
