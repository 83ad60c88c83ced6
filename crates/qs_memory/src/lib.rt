//! Values of the language, and block memory: what loads, stores, copies and operations give, and what of
//! them is undefined. Definitions and their laws; the types of values and operations are what code needs
//! of them.
#![tactic(auto)]

mod blank;
mod laws;
mod operation;
mod scalar;

pub use blank::Blank;
pub use laws::{
    blocks_are_fresh, blocks_are_released, load_after_store, load_elsewhere, loads_after_writes,
    memory_goes_on, pointers_are_defined, soundness_is_kept, steps_are_defined, stores_commute,
    values_are_sound, values_have_types, writes_are_exact,
};
pub use operation::{
    Arithmetic, BinaryOperation, Comparison, Direction, Signedness, UnaryOperation, integer_type,
};
pub use scalar::{Scalar, is_integer};
