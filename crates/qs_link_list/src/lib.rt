//! Lists of the files of a program: a line for each source, with its proof file where it has one.
#![tactic(auto)]

mod entry;
mod fault;
mod reading;

pub use entry::Entry;
pub use fault::ListFault;
pub use reading::{LIST_LIMIT, read};
