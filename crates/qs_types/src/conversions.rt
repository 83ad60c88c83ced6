// Conversions of arithmetic operands (C11 6.3.1).
ghost use Rattle.std.specs.Prelude.{◌≡◌};
ghost use Rattle.qs_types.specs.Conversions.{arithmetic, promoted};
ghost use Rattle.qs_types.specs.TypeOf.{type_tree};

use crate::kinds::is_unsigned;
use crate::types::CType;

/// The type of an operand of an integer type after the integer promotions (C11 6.3.1.1p2).
pub fn promoted(t: &CType) -> CType
    ensures { type_tree result ≡ promoted (type_tree t.now) }
{
    if is_unsigned(t) {
        CType::Unsigned
    } else {
        CType::Int
    }
}

/// The type after the usual arithmetic conversions (C11 6.3.1.8).
pub fn arithmetic(t: &CType, u: &CType) -> CType
    ensures { type_tree result ≡ arithmetic (type_tree t.now) (type_tree u.now) }
{
    if is_unsigned(t) || is_unsigned(u) {
        CType::Unsigned
    } else {
        CType::Int
    }
}
