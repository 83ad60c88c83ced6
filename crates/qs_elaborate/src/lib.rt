//! From the typed tree of a unit to core: its functions, the names in them, and its data.
#![tactic(auto)]

mod data_blocks;
mod declaring;
mod function;
mod names;
mod naming;
mod unit;
mod unit_names;

pub use unit::{elaborate, elaborated};
