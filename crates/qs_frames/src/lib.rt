//! Frames: what a call of a function takes of the stack, and where its parts lie from x2 on.
#![tactic(auto)]

mod blocks;
mod frame;
mod laws;
mod parts;

pub use blocks::{Starts, laid_from, total_within};
pub use frame::Frame;
pub use laws::{frames_are_laid_out, no_more_is_kept_than_values};
pub use parts::{layout, slot_starts, stored_registers, try_layout};
