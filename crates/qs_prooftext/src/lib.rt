//! The reading of proof files: their certificates, derivations, definitions and entries, and its
//! laws.
#![tactic(auto)]

mod building;
mod certificates;
mod derivations;
mod heads;
mod laws;
mod listed;
mod lists;
mod planting;
mod reading;
mod rules;
mod statements;
mod taking;
mod tops;

pub use laws::{one_meaning, read_is_writable, written_reads};
pub use reading::read;
