//! The typed trees of expressions, initialisers and statements.
#![tactic(auto)]

mod bodies;
mod initialisers;
mod members;
mod typed;

pub use bodies::statements;
