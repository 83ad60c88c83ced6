//! Bounds on the number of calls: the check of entries for them, which functions need an entry, the
//! bound of main, and that entries that are derived so bound the calls of every run.
#![tactic(auto)]

mod check;
mod counting;
mod laws;
mod missing;

pub use check::{check_entries, check_function};
pub use counting::count_of_main;
pub use laws::{counts_bound_calls, entries_bound_calls, main_count_bounds_calls, main_is_counted};
pub use missing::covered;
