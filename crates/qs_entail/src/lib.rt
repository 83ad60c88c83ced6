//! Certificates that one assertion is at least another: which are valid, that these are sound, and
//! their check, which finds the first fault; and the steps of the check, for what shows them.
#![tactic(auto)]

mod branches;
mod building;
mod certificate;
mod combination;
mod facts;
mod failed;
mod fault;
mod flattening;
mod fronts;
mod item;
mod known;
mod laws;
mod nodes;
mod operation;
mod outlining;
mod parts;
mod plain;
mod pushing;
mod rules;
mod stack;
mod standing;
mod stop;
mod sums;
mod unfolding;
mod verdict;
mod walk;

pub use branches::branch;
pub use building::{assertion_polynomial, term_polynomial};
pub use certificate::{Certificate, Fact};
pub use combination::combination as combined;
pub use facts::added;
pub use fault::{CertFault, Rule};
pub use item::Item;
pub use known::Known;
pub use laws::{certificates_are_sound, the_root_is_a_node};
pub use parts::{Guarded, Sides, different_sides, guarded_of, picked, summands};
pub use pushing::push;
pub use rules::{Both, both_unfolded};
pub use standing::rule_of;
pub use stop::{Limit, Stop};
pub use verdict::check;
