//! Tables of rows as data: rows, the lines and contents that they have, and linear code as text.
#![tactic(auto)]

mod content;
mod fault;
mod line;
mod linear;
mod row;

pub use fault::TableFault;
pub use line::{Device, Line, line_of};
pub use linear::{linear_text, places_text};
pub use row::{Act, NamedFile, Row};
