//! Derivations of bounds, on the stack or in calls: which are right, that those on the stack bound
//! the weight of every run, and their check, with the walk over a body, for what shows it.
#![tactic(auto)]

mod body;
mod call_rules;
mod calls;
mod check;
mod derivation;
mod entry;
mod failure;
mod fault;
mod forms;
mod laws;
mod leaf;
mod mentions;
mod nodes;
mod posts;
mod replacements;
mod resource;
mod switches;
mod terms;
mod walk;

pub use body::{body_pre, pre};
pub use calls::{entry_in, with_frame, with_frame_behind};
pub use check::{
    check_function, check_function_for, check_in_order, check_in_order_for, defines_in_order,
    function_of,
};
pub use derivation::{Derivation, FunctionProof, Proofs, Spec};
pub use failure::{Cause, Failure};
pub use fault::{DerivFault, Place};
pub use laws::derivations_bound_runs;
pub use posts::{Posts, Scope, body_posts, step_posts, with_next};
pub use replacements::{Replacement, replaced};
pub use resource::Resource;
pub use terms::{expression_condition, expression_term};
