//! The parser (C11 6.5 to 6.9): the unit that tokens are read as, or that they have no reading of
//! height at most 128.
#![tactic(auto)]

mod declarations;
mod laws;
mod marks;
mod parse;
mod statement_nodes;
mod statements;
mod syntax_fault;
mod units;

pub use laws::{faults_are_unique, one_reading};
pub use parse::unit;
pub use syntax_fault::SyntaxFault;
