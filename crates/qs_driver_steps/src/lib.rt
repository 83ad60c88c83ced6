//! What a command is: a list of steps, each of which finds something or refuses for a cause, and an
//! end. What follows for every command of how it is run is proved here once: that each refusal comes
//! exactly where its cause is and the steps before it pass, that no other status comes, that a
//! command which nothing refuses comes to its end, and that no failure of a device is hidden.
//!
//! How calls end is left open (specs/Statuses.antt): whoever has commands says which statuses there
//! are. The definitions stand in specs/, the theorems in proofs/Follows.antt.
#![tactic(auto)]

mod devices;

pub use devices::{Devices, Streams};
