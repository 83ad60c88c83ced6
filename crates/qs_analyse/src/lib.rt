//! The analyser: what is added to the proofs of a unit, so that each function has an entry.
#![tactic(auto)]

mod definitions;
mod entries;
mod filling;
mod laws;
mod needs;
mod written;

pub use filling::fill;
pub use laws::{
    calls_meet_specs, filled_entries_are_valid, filled_proofs_cover, one_filling,
    open_names_are_longest_paths,
};
