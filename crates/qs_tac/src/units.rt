// The parts of a unit of linear code.

use crate::instruction::Instruction;
use qs_calls::Parameter;

/// A function with a body.
#[derive(Drop)]
pub struct TacFunction {
    /// where its arguments go: into temporaries, or into blocks
    pub parameters: Vec<Parameter>,
    /// how many temporaries it has
    pub temporaries: u32,
    /// the sizes of the blocks that a call makes, by their numbers
    pub blocks: Vec<u32>,
    /// its instructions, by their places; the first is where it begins
    pub code: Vec<Instruction>,
}

/// A block of data: a file-scope variable, or a string literal.
#[derive(Clone, Copy)]
pub struct TacData {
    /// its bytes
    pub size: u32,
    /// whether it may be written; string literals may not
    pub is_writable: bool,
}
