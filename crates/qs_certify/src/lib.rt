//! What a unit of core needs before it is built: proofs that cover it, and main's bound.
#![tactic(auto)]

mod bound;
mod certification;
mod entries;
mod fault;
mod given;
mod laws;

pub use bound::{bound_of_function, bound_of_main};
pub use certification::{Certified, certify, check_proofs};
pub use entries::functions_of;
pub use fault::CertifyFault;
pub use given::given_proofs;
pub use laws::{
    added_is_right, added_is_writable, bounds_are_longest_paths, bounds_are_needs,
    certified_is_one, faults_are_of_functions, faults_are_told, main_bounds_runs,
    right_proofs_are_certified,
};
