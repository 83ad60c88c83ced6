//! Typed trees: expressions, statements, functions and data with their types resolved.
#![tactic(auto)]

mod data;
mod expressions;
mod program;
mod scalars;
mod statements;

pub use data::{Datum, StaticBlock};
pub use expressions::{
    Argument, Assignment, Conversion, Effect, Expression, Lvalue, Object, Order,
};
pub use program::{TypedFunction, TypedProgram};
pub use scalars::scalar_of;
pub use statements::Statement;
