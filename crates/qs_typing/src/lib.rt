//! The types of a unit, or the first fault in it.
#![tactic(auto)]

mod checking;
mod declared_types;
mod functions;
mod initialisers;
mod lengths;
mod members_before;
mod statements;
mod structs;
mod switches;
mod type_names;
mod units;
mod variables;

pub use checking::check;
