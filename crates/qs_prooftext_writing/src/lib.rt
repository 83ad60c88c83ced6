//! The writing of proof files: the words, lists and atoms of proofs and their parts, and their text.
#![tactic(auto)]

mod certificate_tokens;
mod derivation_tokens;
mod fact_tokens;
mod file_text;
mod machine_numbers;
mod naming;
mod putting;
mod writing;

pub use file_text::write;
pub use naming::WordTable;
pub use putting::put_nodes;
pub use writing::variable_text;
