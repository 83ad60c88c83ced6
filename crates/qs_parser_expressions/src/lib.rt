//! The parser of expressions and type names (C11 6.5, 6.7.7), and the heads that tokens begin with.
#![tactic(auto)]

mod context;
mod expressions;
mod halt;
mod heads;
mod nodes;
mod types;

pub use context::Context;
pub use expressions::{Form, followed, part};
pub use halt::Halt;
pub use heads::{
    begins_one, begins_type, expect, expect_any_name, expect_name, is_keyword, is_punctuator,
    place, starts, starts_with, strip,
};
pub use types::{outer_type, stars, type_of};
