//! Copies of the trees of a source, with the same numbers and tokens of their nodes.
#![tactic(auto)]

mod declarations;
mod expressions;
mod statements;
mod units;

pub use units::copy_unit;
