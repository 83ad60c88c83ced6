//! Terms, conditions and assertions of derivations: their trees, substitution, and their values.
#![tactic(auto)]

mod amounts;
mod assertions;
mod bound;
mod conditions;
mod define;
mod evaluation;
mod images;
mod laws;
mod listing;
mod node;
mod numbers;
mod order;
mod room;
mod sameness;
mod shape;
pub mod stack;
mod substitution;
mod terms;
mod total;
mod tree;
mod truths;
mod variable;
mod variables;
mod views;

pub use bound::{bound_of, value_at};
pub use define::{Amount, Define};
pub use images::{Image, Others, Substituted, substitute, substitute_all};
pub use laws::{images_give_values, parts_are_of_their_variables, values_are_of_their_variables};
pub use listing::{put_nodes, put_term};
pub use node::{AssertionNode, CondNode, Node, TermNode};
pub use order::order_fault;
pub use room::{Room, within};
pub use sameness::same_nodes;
pub use tree::{Assertion, Cond, Term};
pub use variable::{NumberType, Var, VarKind};
pub use variables::mentions;
pub use views::{
    AssertionView, AssertionViews, CondView, begins, head_arity, parts, split_tree, tree_length,
};
