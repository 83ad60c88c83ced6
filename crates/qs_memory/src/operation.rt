// Operations on values, after conversions (C11 6.3.1) and with the sizes of elements as numbers.
ghost use Rattle.std.specs.Prelude.{◌≡◌};
ghost use Rattle.qs_memory.specs.Operations.{integer_type};

use crate::scalar::Scalar;

/// Whether an integer of 32 bits is an `int` or an `unsigned`.
#[derive(Clone, Copy, Debug)]
pub enum Signedness {
    /// `int`
    Signed,
    /// `unsigned`
    Unsigned,
}

/// An operation on a value (C11 6.5.3.3).
#[derive(Clone, Copy, Debug)]
pub enum UnaryOperation {
    /// `+` on an integer of this type
    Plus(Signedness),
    /// `-` on an integer of this type
    Minus(Signedness),
    /// `~` on an integer of this type
    Complement(Signedness),
    /// `!` on a scalar: whether it equals 0
    Not,
    /// whether a scalar differs from 0
    Truth,
}

/// An operation on two integers of one type that gives one of that type (C11 6.5.5 to 6.5.7, 6.5.10 to
/// 6.5.12). A shift's type is that of its left operand.
#[derive(Clone, Copy, Debug)]
pub enum Arithmetic {
    /// `+`
    Add,
    /// `-`
    Subtract,
    /// `*`
    Multiply,
    /// `/`
    Divide,
    /// `%`
    Remainder,
    /// `<<`
    ShiftLeft,
    /// `>>`
    ShiftRight,
    /// `&`
    And,
    /// `|`
    Or,
    /// `^`
    Xor,
}

/// A comparison (C11 6.5.8, 6.5.9).
#[derive(Clone, Copy, Debug)]
pub enum Comparison {
    /// `<`
    Less,
    /// `<=`
    LessOrEqual,
    /// `>`
    Greater,
    /// `>=`
    GreaterOrEqual,
    /// `==`
    Equal,
    /// `!=`
    NotEqual,
}

/// The way in which an integer moves a pointer (C11 6.5.6p8).
#[derive(Clone, Copy)]
pub enum Direction {
    /// `+`
    Up,
    /// `-`
    Down,
}

/// An operation on two values.
#[derive(Clone, Copy)]
pub enum BinaryOperation {
    /// on two integers of this type, but that the right operand of a shift may have the other type
    Arithmetic(Arithmetic, Signedness),
    /// of two integers of this type
    Compare(Comparison, Signedness),
    /// a pointer, moved by an integer of this type times the size of an element
    Move(Direction, Signedness, u32),
    /// the difference of two pointers, in elements of this size
    Difference(u32),
    /// of two pointers
    ComparePointers(Comparison),
}

/// The type of such an integer.
pub fn integer_type(s: Signedness) -> Scalar
    ensures { result ≡ integer_type s }
{
    match s {
        Signedness::Signed => Scalar::Int,
        Signedness::Unsigned => Scalar::Unsigned,
    }
}
