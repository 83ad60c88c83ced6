// Expressions of core. They have no side effects.

use crate::numbers::BlockId;
use qs_memory::{BinaryOperation, Scalar, UnaryOperation};

/// A pure expression. Its conversions are explicit, and sizes and offsets are numbers.
#[cycle(core_expr)]
pub enum CoreExpr {
    /// an integer of this type, as its 32 bits
    Literal(Scalar, u32),
    /// a null pointer
    Null,
    /// the variable of this type with this number
    Variable(Scalar, u32),
    /// the temporary of this type with this number
    Temporary(Scalar, u32),
    /// a pointer to the start of a block
    Address(BlockId),
    /// the value of this type that the pointer points to
    Load(Scalar, Box<CoreExpr>),
    /// a pointer to the member at this offset of the object that the pointer points to
    Member(u32, Box<CoreExpr>),
    /// an operation on a value
    Unary(UnaryOperation, Box<CoreExpr>),
    /// an operation on two values
    Binary(BinaryOperation, Box<Operands>),
    /// a value of this type
    Convert(Scalar, Box<CoreExpr>),
    /// `&&`
    And(Box<Operands>),
    /// `||`
    Or(Box<Operands>),
    /// `?:`
    Conditional(Box<CoreExpr>, Box<CoreExpr>, Box<CoreExpr>),
}

/// Two operands.
#[cycle(core_expr)]
pub struct Operands {
    /// the left one
    pub left: CoreExpr,
    /// the right one
    pub right: CoreExpr,
}

// Drops are written by hand, since a derived drop of a tree stands with all its cases at each place
// where a tree may be dropped.

impl Drop for CoreExpr {
    #[cycle(drop_expr)]
    fn drop(self) {
        match self {
            CoreExpr::Literal(_, _) => {}
            CoreExpr::Null => {}
            CoreExpr::Variable(_, _) => {}
            CoreExpr::Temporary(_, _) => {}
            CoreExpr::Address(_) => {}
            CoreExpr::Load(_, _) => {}
            CoreExpr::Member(_, _) => {}
            CoreExpr::Unary(_, _) => {}
            CoreExpr::Binary(_, _) => {}
            CoreExpr::Convert(_, _) => {}
            CoreExpr::And(_) => {}
            CoreExpr::Or(_) => {}
            CoreExpr::Conditional(_, _, _) => {}
        }
    }
}

impl Drop for Operands {
    #[cycle(drop_expr)]
    fn drop(self) {
        let Operands { left: _, right: _ } = self;
    }
}
