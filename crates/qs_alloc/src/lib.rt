//! Where the temporaries of functions stand: in registers as far as registers are free where they
//! are needed, else in slots; and the test whether places keep what functions do.
#![tactic(auto)]

mod assignment;
mod certificate;
mod lists;
mod live_ranges;
mod points;
mod registers;
mod rows;
mod sharing;
mod verification;

pub use assignment::{all_slots, assign, assign_unit};
pub use verification::{verify, verify_unit};
