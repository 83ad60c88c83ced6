// Scalar types (C11 6.2.5p21).
ghost use Rattle.std.specs.Prelude.{◌≡◌};
ghost use Rattle.qs_memory.specs.Scalars.{is_integer};

/// A scalar type. `char` and `unsigned char` are one type of 8 bits without a sign, and pointers to
/// all types are one.
#[derive(Clone, Copy, Debug, PartialEq, Eq)]
pub enum Scalar {
    /// 8 bits, without a sign
    Char,
    /// 32 bits, with a sign
    Int,
    /// 32 bits, without a sign
    Unsigned,
    /// 4 bytes
    Pointer,
}

/// Whether it is an integer type (C11 6.2.5p17).
pub fn is_integer(s: Scalar) -> bool
    ensures { result ≡ is_integer s }
{
    match s {
        Scalar::Char => true,
        Scalar::Int => true,
        Scalar::Unsigned => true,
        Scalar::Pointer => false,
    }
}
