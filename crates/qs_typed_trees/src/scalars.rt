// The scalar types of values (C11 6.2.5p21).
ghost use Rattle.std.specs.Prelude.{◌≡◌};
ghost use Rattle.qs_meaning.specs.Conversions.{scalar_of};
ghost use Rattle.qs_types.specs.TypeOf.{type_tree};

use qs_memory::Scalar;
use qs_types::CType;

/// The scalar type of a value: that of an array or of a struct is a pointer to it (C11 6.3.2.1p3).
pub fn scalar_of(t: &CType) -> Scalar
    ensures { result ≡ scalar_of (type_tree t.now) }
{
    match t {
        CType::Int => Scalar::Int,
        CType::Unsigned => Scalar::Unsigned,
        CType::Char => Scalar::Char,
        CType::Void => Scalar::Int,
        CType::Pointer(_) => Scalar::Pointer,
        CType::Array(_, _) => Scalar::Pointer,
        CType::Struct(_) => Scalar::Pointer,
    }
}
