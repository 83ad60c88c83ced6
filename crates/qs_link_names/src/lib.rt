//! The linkage of names (C11 6.2.2): declarations of a file with their names as the program calls
//! them, and the names that an initialiser uses.
#![tactic(auto)]

mod declarations;
mod expressions;
mod linkage;
mod statements;
mod units;
mod uses;

pub use linkage::{Internal, internal_name};
pub use units::linked_decl;
pub use uses::setting_uses_only;
