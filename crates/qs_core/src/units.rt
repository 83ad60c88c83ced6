// The parts of a unit of core.

use crate::statements::CoreStmt;
use qs_base::Name;
use qs_calls::Parameter;
use qs_memory::{Blank, Scalar};

/// A parameter.
#[derive(Drop)]
pub struct CoreParameter {
    /// its name
    pub name: Name,
    /// where its argument goes
    pub place: Parameter,
}

/// A variable of a call: a scalar whose address is never taken.
#[derive(Drop)]
pub struct CoreVariable {
    /// its name in the source
    pub name: Name,
    /// from 1: which of the variables of that name that the function declares it is
    pub ordinal: u32,
    /// its type
    pub scalar: Scalar,
}

/// A function with a body.
#[derive(Drop)]
pub struct CoreFunction {
    /// its name
    pub name: Name,
    /// its parameters, in order
    pub parameters: Vec<CoreParameter>,
    /// its variables by their numbers, plain parameters included
    pub variables: Vec<CoreVariable>,
    /// the types of its temporaries by their numbers
    pub temporaries: Vec<Scalar>,
    /// the sizes of the blocks that a call makes, by their numbers
    pub blocks: Vec<u32>,
    /// the type of its result, if it has one
    pub result_type: Option<Scalar>,
    /// the statements of its body
    pub body: Vec<CoreStmt>,
}

/// A part of what a block of data begins with.
#[derive(Drop)]
pub enum Piece {
    /// zeros and null pointers
    Blank(Blank),
    /// bytes
    Bytes(Vec<u8>),
    /// a pointer into the block of data with this number, at this offset
    Address(u32, u32),
}

/// A block of data: a file-scope variable, or a string literal.
#[derive(Drop)]
pub struct DataBlock {
    /// whether it may be written; string literals may not
    pub is_writable: bool,
    /// what it begins with, in order
    pub pieces: Vec<Piece>,
}
