//! What is known in a unit by the numbers of its nodes, the typed tree over that, and the parts of
//! objects.
#![tactic(auto)]

mod blanks;
mod known;
mod piece;
mod places;
mod structs;
mod texts;

pub use blanks::blank_of;
pub use known::{Designator, Known, referent_in, type_in};
pub use piece::{Piece, pieces};
pub use places::{Locals, Statics, file_variable_object, local_lvalue, text_object};
pub use structs::{offset_at, struct_members};
pub use texts::text_of;
