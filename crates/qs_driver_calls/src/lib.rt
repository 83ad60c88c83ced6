//! The command that bounds how many calls a program makes: by the entries of a proof file that are
//! derived where calls are counted.
#![tactic(auto)]

mod arguments;
mod commands;
mod counted;
mod laws;

pub use commands::calls::calls;
pub use laws::{calls_in_plain_words, counts_are_bounds};
