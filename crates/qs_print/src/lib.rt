//! Prints a unit as a text that reads back to it (C11 6.4 to 6.9).
#![tactic(auto)]

mod declarations;
mod expressions;
mod laws;
mod levels;
mod literals;
mod statements;
mod types;
mod units;
mod words;

pub use laws::lexed_back;
pub use units::print;
