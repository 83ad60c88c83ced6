//! What typing finds: what names stand for, the types of expressions, the rules that are broken in
//! them, a unit with its types, and the causes of refusals.
#![tactic(auto)]

mod assignments;
mod context;
mod entity;
mod expressions;
mod found;
mod judged;
mod laws;
mod members;
mod names;
mod noted;
mod operands;
mod operators;
mod positions;
mod scopes;
mod sites;
mod type_fault;
mod typed_unit;
mod types;
mod walk;

pub use context::{Around, Context, is_void_base, starred, struct_at};
pub use entity::{Entity, Signature};
pub use expressions::walk_expression;
pub use found::{Fault, Found};
pub use judged::{Test, keeps, violates};
pub use laws::{
    first_causes_are_told, functions_are_latest, functions_are_latest_in_bodies,
    given_functions_keep_types, given_functions_keep_types_in_bodies,
};
pub use noted::{Block, Local, Noted, TextBlock, block_past, local_of};
pub use operands::{is_assignable, is_lvalue};
pub use positions::Position;
pub use type_fault::TypeFault;
pub use typed_unit::TypedUnit;
pub use types::{copied, decayed, type_or_void};
pub use walk::Walk;
