//! Which functions call which: an order in which callees stand before callers, or a cycle, and
//! which functions are open.
#![tactic(auto)]

mod callees;
mod callers;
mod fault;
mod laws;
mod lists;
mod opening;
mod ordering;
mod path;
mod search;

pub use callees::called_by;
pub use fault::CycleFault;
pub use laws::{one_depth_first, orders_exclude_cycles, orders_exclude_recursion};
pub use opening::open;
pub use ordering::{order, searched};
