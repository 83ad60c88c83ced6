//! The reading of the assertions, combinations, ranges and facts of a proof file.
#![tactic(auto)]

mod assertions;
mod combinations;
mod facts;
mod leaves;
mod parts;
mod ranges;
mod rows;
mod sorts;

pub use assertions::{read_assertion, read_definition};
pub use combinations::first_index;
pub use facts::{
    apart, bits_half, bits_rise, first_assertion, first_combination, first_condition, first_name,
    first_range, first_term, num_is, quotient, wrap_signed, wrap_unsigned,
};
pub use parts::{Part, after_first, behind, head_of, part_of};
