//! What every crate shares: the fault for want of memory, classes of bytes, keywords and names, the
//! numbers of functions, how many parameters they may have, counts, places of a text, and the
//! operations on words.
#![tactic(auto)]

mod bytes;
mod counts;
mod function;
mod keyword;
mod memory;
mod name;
mod names;
mod parameters;
mod places;
mod words;

pub use bytes::{is_between, is_digit, is_letter, is_word_byte, line_length};
pub use counts::{count, product, sum};
pub use function::FnId;
pub use keyword::Keyword;
pub use memory::NoMemory;
pub use name::Name;
pub use names::is_name;
pub use parameters::{MOST_MAIN_PARAMETERS, MOST_PARAMETERS, MOST_REGISTER_ARGUMENTS};
pub use places::{Pos, position};
pub use words::{add32, divs32, divu32, mul32, rems32, remu32, sll32, sra32, srl32, sub32};
