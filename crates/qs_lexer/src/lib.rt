//! The lexer: the tokens of a text (C11 6.4), or its first fault, both exactly.
#![tactic(auto)]

mod bytes;
mod ends;
mod fault;
mod laws;
mod literals;
mod numbers;
mod pieces;
mod reading;
mod scan;
mod terminal_list;
mod words;

pub use fault::{FaultKind, LexFault};
pub use laws::{each_terminal, each_token, one_reading};
pub use literals::text_bytes;
pub use pieces::Piece;
pub use reading::{SOURCE_LIMIT, tokens};
pub use scan::next;
pub use terminal_list::terminals;
