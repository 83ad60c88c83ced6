//! Lists of tasks and arrivals: what a list says, or the first fault in it.
#![tactic(auto)]

mod fault;
mod functions;
mod lines;
mod listing;
mod numbers;
mod placed;

pub use fault::TasksFault;
pub use listing::list;
