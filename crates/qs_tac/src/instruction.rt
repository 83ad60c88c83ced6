// The instructions of linear code.

use crate::operands::{Address, Condition, Operand};
use qs_calls::Callee;
use qs_memory::{BinaryOperation, Blank, Scalar, UnaryOperation};

/// An instruction. What it writes is a temporary, by its number; what it jumps to is an instruction
/// of its function, by its index.
#[derive(Drop)]
pub enum Instruction {
    /// gives the temporary the value
    Move(u32, Operand),
    /// an operation on a value
    Unary(UnaryOperation, u32, Operand),
    /// an operation on two values
    Binary(BinaryOperation, u32, Operand, Operand),
    /// a value of this type
    Convert(Scalar, u32, Operand),
    /// gives the temporary a pointer to the address
    AddressOf(u32, Address),
    /// the value of this type at the address
    Load(Scalar, u32, Address),
    /// stores, as this type, at the address, the value
    Store(Scalar, Address, Operand),
    /// copies so many bytes, aligned like this, to an address from another
    Copy {
        size: u32,
        alignment: u32,
        to: Address,
        from: Address,
    },
    /// fills the object at the address
    Fill(Blank, Address),
    /// calls with these arguments, and puts the result into this temporary
    Call(Option<u32>, Callee, Vec<Operand>),
    /// goes on with the instruction at this index
    Jump(u32),
    /// goes on with it where the condition holds
    Branch(Condition, u32),
    /// ends the function, with this result
    Return(Option<Operand>),
}
