//! What an expression is before it is known how it is used, its uses, sizes of types, and
//! conversions.
#![tactic(auto)]

mod forms;
mod sizes;
mod types;

pub use forms::{Form, Step, Typed, effect_in_use, type_in_use, value_in_use};
pub use sizes::{extent_in, size_in};
pub use types::{between, common, conversion, referenced, signedness};
