//! What a call is, for every language whose runs are over block memory: where its arguments go, the
//! blocks that it makes and releases, its events, what a run may start from, and the two functions
//! that the environment gives.
#![tactic(auto)]

mod callee;
mod parameter;

pub use callee::Callee;
pub use parameter::Parameter;
