//! What the lists and atoms of a proof file mean in a unit, which proofs can be written, and as
//! which lists.
#![tactic(auto)]

mod context;
mod definitions;
mod fault;
mod variables;

pub use context::{Context, Names, Word, find_function, find_variable, is_defined};
pub use definitions::Definitions;
pub use fault::TextFault;
pub use variables::{returned, words_of};
