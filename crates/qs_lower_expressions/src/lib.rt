//! From expressions of core to linear code: what each becomes, that it does what it did, and how
//! tests jump to the exits that they are given.
#![tactic(auto)]

mod addresses;
mod emission;
mod exits;
mod operands;
mod planning;
mod plans;
mod scratch;
mod sizes;
mod values;

pub use addresses::{address_at, operand_of};
pub use emission::{emit_base, emit_into, emit_operand, emit_test};
pub use exits::{Exit, emit_exit, exit_size, place, put};
pub use planning::lowered;
pub use plans::ExprPlan;
pub use scratch::{base_own, base_used, own, test_used, used, used_by};
pub use sizes::{base_size, size, size_of, test_size};
