//! Core: statements over pure expressions, with loops, calls and temporaries; what they mean, what
//! holds of every unit of core, its terms, sizes and nesting, who calls whom in it, and its outline
//! as text.
#![tactic(auto)]

mod conditions;
mod expressions;
mod function_names;
mod labels;
mod laws;
mod names;
mod numbers;
mod outline;
mod statements;
mod term;
mod term_length;
mod term_text;
mod terms;
mod types;
mod unit;
mod units;

pub use conditions::condition_of;
pub use expressions::{CoreExpr, Operands};
pub use function_names::name_of;
pub use labels::{CoreLabel, default_part};
pub use laws::{
    bodies_stay_in_range, calls_alone, calls_stay_in_range, core_grows, expressions_have_types,
    initial_memory_is_ready, joined_nest, runs_leave_sound,
};
pub use numbers::{BlockId, Target};
pub use outline::print_outline;
pub use statements::CoreStmt;
pub use term::{CoreCondition, CoreTerm, TermComparison, TermOperation};
pub use terms::{literal_value, term_of};
pub use types::type_of;
pub use unit::CoreUnit;
pub use units::{CoreFunction, CoreParameter, CoreVariable, DataBlock, Piece};
