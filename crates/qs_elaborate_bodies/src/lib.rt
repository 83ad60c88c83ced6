//! From typed trees to core: what core is, and the code of expressions and statements.
#![tactic(auto)]

mod acting;
mod branching;
mod copies;
mod expression;
mod labels;
mod literals;
mod operations;
mod parts;
mod reserving;
mod statement;
mod writing;

pub use parts::push;
pub use statement::statements;
