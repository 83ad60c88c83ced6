// A unit of core.
ghost use Rattle.std.specs.Prelude.{◌≡◌, true};
ghost use Rattle.qs_core.specs.TreeOf.{unit_from};
ghost use Rattle.qs_core.specs.Fits.{unit_fits};

use crate::units::{CoreFunction, DataBlock};
use qs_base::FnId;

/// A unit. Its numbers are below their counts, its operations are on operands of the types that
/// they take, parameter i of a function is its variable i, breaks stand in loops and continues in
/// their bodies, and no temporary that takes a call's result occurs in the call's arguments.
#[derive(Drop)]
pub struct CoreUnit {
    /// the functions with a body, in the order of their definitions
    pub functions: Vec<CoreFunction>,
    /// main
    pub main: FnId,
    /// the file-scope variables in order of declaration, and then the string literals in order of
    /// the text: the first blocks of every memory
    pub data_blocks: Vec<DataBlock>,
    ghost fits: { unit_fits (unit_from functions.items main.0 data_blocks.items) ≡ true },
}
