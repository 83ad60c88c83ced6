//! What the commands share that read a proof file: the steps to its proofs, and how a fault of them
//! is told.
#![tactic(auto)]

mod faults;
mod told;

pub use faults::proofs_told;
