//! What crates below the tool answer, as the text that a row of a table compares.
#![tactic(auto)]

mod printing;

pub use printing::{
    printed_code, printed_command, printed_instructions, printed_places, printed_tokens,
    printed_unit,
};
