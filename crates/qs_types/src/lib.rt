//! The types of the language, how their objects lie in memory, what names stand for, constants, and
//! the typing rules and limits as definitions.
#![tactic(auto)]

mod constants;
mod conversions;
mod env;
mod extent;
mod kinds;
mod laws;
mod layout;
mod limits;
mod referent;
mod rules;
mod structs;
mod type_names;
mod types;

pub use constants::{converted_to, is_built, is_null_constant, value};
pub use conversions::{arithmetic, promoted};
pub use env::Env;
pub use extent::Extent;
pub use kinds::{is_array, is_integer, is_pointer, is_scalar, is_struct, is_unsigned, is_void};
pub use laws::{
    constants_have_types, limits_are_kept, rounds, rules_are_kept, sizes_aligned, structs_laid_out,
};
pub use layout::{
    SIZE_LIMIT, align_of, extent_of, is_complete, members_layout, offset_of, size_of,
};
pub use limits::LimitKind;
pub use referent::Referent;
pub use rules::Rule;
pub use structs::{StructLayout, StructType};
pub use type_names::TypeNames;
pub use types::CType;
