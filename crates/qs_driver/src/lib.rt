//! The tool: one call, `run_tool`, does all that the program does; the commands that certify or
//! compile a source, and the promise.
#![tactic(auto)]

mod certified;
mod commands;
mod laws;
mod made;
mod orders;
mod tool;

pub use laws::{
    accepted_sources_are_built_right, certified_sources_are_bounded, promises_in_plain_words,
    samples_are_good, samples_have_stacks, sources_pass_no_size,
};
pub use qs_driver_session::{
    Devices, FileKind, ProofFault, SourceFault, Status, TokenPlace, WordsFault,
};
pub use tool::run_tool;
