//! The lists and atoms of proof files: their nodes, or the first fault of the text, both exactly;
//! and how they are laid out as a text.
#![tactic(auto)]

mod bytes;
mod fault;
mod laws;
mod layout;
mod node;
mod numbers;
mod parts;
mod pieces;
mod reader;
mod reading;
mod sizes;
mod token;
mod writing;

pub use fault::SexprFault;
pub use laws::{each_place, one_reading, read_is_writable, spelled_reads, written_reads};
pub use node::{Item, Node};
pub use parts::{first_part, parts_of_list, symbol_bytes};
pub use reading::read;
pub use token::Token;
pub use writing::write;
