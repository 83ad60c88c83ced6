// Variables of terms.

/// Which variable a term means.
#[derive(Clone, Copy, Debug)]
pub enum VarKind {
    /// The plain variable of this number; parameter i is `Plain(i)`.
    Plain(u32),
    /// The temporary of this number.
    Temporary(u32),
    /// The value that the plain variable of this number had at the entry: `(old x)`.
    Old(u32),
    /// The function's result: `(result)`.
    Returned,
}

/// The integer type of a variable.
#[derive(Clone, Copy, Debug, PartialEq, Eq)]
pub enum NumberType {
    /// -2^31 to 2^31 - 1.
    Int,
    /// 0 to 2^32 - 1.
    Unsigned,
    /// 0 to 255.
    Char,
}

/// A variable of a term, and its type.
#[derive(Clone, Copy, Debug)]
pub struct Var {
    /// Which variable it is.
    pub kind: VarKind,
    /// Its type.
    pub number: NumberType,
}
