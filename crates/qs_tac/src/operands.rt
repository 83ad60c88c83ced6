// What instructions take.
ghost use Rattle.std.specs.Prelude.{◌≡◌};
ghost use Rattle.qs_tac.specs.Operands.{is_constant};

use qs_memory::{Comparison, Signedness};

/// A value that an instruction takes as it stands.
#[derive(Clone, Copy)]
pub enum Operand {
    /// the value of the temporary with this number
    Temporary(u32),
    /// the integer in the temporary with this number; as an `int` and as an `unsigned` it has the
    /// same 32 bits, and each `char` is an `int` (C11 6.3.1.1p2, 6.3.1.3)
    Integer(u32),
    /// the low 8 bits of the integer in the temporary with this number: what it is as a `char`
    /// (C11 6.3.1.3p2)
    Byte(u32),
    /// an integer, as its 32 bits
    Constant(u32),
    /// a null pointer
    Null,
    /// a pointer to the start of the block with this number among those that the call makes
    Local(u32),
    /// a pointer to the start of the block with this number among the unit's data
    Data(u32),
}

/// How many elements an address stands behind another (C11 6.5.6p8), and which member it is there.
#[derive(Clone, Copy)]
pub struct Index {
    /// how many
    pub count: Operand,
    /// whether the count is an `int` or an `unsigned`
    pub signedness: Signedness,
    /// the size of an element in bytes
    pub element: u32,
    /// the offset of the member, in bytes, where one is taken
    pub offset: Option<u32>,
}

/// Where an access begins: a pointer, a member of what it points to (C11 6.5.2.3), and an element
/// there (C11 6.5.2.1). Where a member or an element is taken, the pointer has to be into a live
/// object.
#[derive(Clone, Copy)]
pub struct Address {
    /// the pointer
    pub base: Operand,
    /// the offset of the member, in bytes, where one is taken
    pub offset: Option<u32>,
    /// the element, where there is one
    pub index: Option<Index>,
}

/// When a branch is taken.
#[derive(Clone, Copy)]
pub enum Condition {
    /// the scalar differs from 0
    NotZero(Operand),
    /// the scalar equals 0
    Zero(Operand),
    /// of two integers of this type
    Compare(Comparison, Signedness, Operand, Operand),
    /// of two pointers
    ComparePointers(Comparison, Operand, Operand),
}

/// Whether it is a constant.
pub fn is_constant(o: Operand) -> bool
    ensures { result ≡ is_constant o }
{
    match o {
        Operand::Constant(_) => true,
        Operand::Temporary(_) => false,
        Operand::Integer(_) => false,
        Operand::Byte(_) => false,
        Operand::Null => false,
        Operand::Local(_) => false,
        Operand::Data(_) => false,
    }
}
