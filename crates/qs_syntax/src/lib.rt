//! The trees of the language, what tokens are read as which (C11 6.5 to 6.9), and the numbers of
//! their nodes.
#![tactic(auto)]

mod declarations;
mod expressions;
mod nodes;
mod statements;
mod types;
mod unit;
mod units;

pub use declarations::{
    Declaration, Declarator, Initialiser, InitialiserList, Lengths, Members, Parameter, Variable,
};
pub use expressions::{Expr, Shape};
pub use nodes::Node;
pub use statements::{Start, Stmt};
pub use types::{Base, TypeName};
pub use unit::{Unit, numbered};
pub use units::{Decl, Defined, Forward, Function, Struct, Typedef};
