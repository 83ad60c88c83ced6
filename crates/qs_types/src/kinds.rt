// Kinds of types (C11 6.2.5).
ghost use Rattle.std.specs.Prelude.{◌≡◌};
ghost use Rattle.qs_types.specs.TypeOf.{type_tree};
ghost use Rattle.qs_types.specs.Types.{is_array, is_integer, is_pointer, is_scalar, is_struct};
ghost use Rattle.qs_types.specs.Types.{is_void, same_type, unsigned};

use crate::types::CType;

/// Whether it is an integer type (C11 6.2.5p17).
pub fn is_integer(t: &CType) -> bool
    ensures { result ≡ is_integer (type_tree t.now) }
{
    match t {
        CType::Int => true,
        CType::Unsigned => true,
        CType::Char => true,
        CType::Void => false,
        CType::Pointer(_) => false,
        CType::Array(_, _) => false,
        CType::Struct(_) => false,
    }
}

/// Whether it is a pointer type (C11 6.2.5p20).
pub fn is_pointer(t: &CType) -> bool
    ensures { result ≡ is_pointer (type_tree t.now) }
{
    match t {
        CType::Int => false,
        CType::Unsigned => false,
        CType::Char => false,
        CType::Void => false,
        CType::Pointer(_) => true,
        CType::Array(_, _) => false,
        CType::Struct(_) => false,
    }
}

/// Whether it is an array type (C11 6.2.5p20).
pub fn is_array(t: &CType) -> bool
    ensures { result ≡ is_array (type_tree t.now) }
{
    match t {
        CType::Int => false,
        CType::Unsigned => false,
        CType::Char => false,
        CType::Void => false,
        CType::Pointer(_) => false,
        CType::Array(_, _) => true,
        CType::Struct(_) => false,
    }
}

/// Whether it is a struct (C11 6.2.5p20).
pub fn is_struct(t: &CType) -> bool
    ensures { result ≡ is_struct (type_tree t.now) }
{
    match t {
        CType::Int => false,
        CType::Unsigned => false,
        CType::Char => false,
        CType::Void => false,
        CType::Pointer(_) => false,
        CType::Array(_, _) => false,
        CType::Struct(_) => true,
    }
}

/// Whether it is `void` (C11 6.2.5p19).
pub fn is_void(t: &CType) -> bool
    ensures { result ≡ is_void (type_tree t.now) }
{
    match t {
        CType::Int => false,
        CType::Unsigned => false,
        CType::Char => false,
        CType::Void => true,
        CType::Pointer(_) => false,
        CType::Array(_, _) => false,
        CType::Struct(_) => false,
    }
}

/// Whether it is `unsigned`.
pub fn is_unsigned(t: &CType) -> bool
    ensures { result ≡ same_type (type_tree t.now) unsigned }
{
    t.same(&CType::Unsigned)
}

/// Whether it is an integer or a pointer (C11 6.2.5p21).
pub fn is_scalar(t: &CType) -> bool
    ensures { result ≡ is_scalar (type_tree t.now) }
{
    is_integer(t) || is_pointer(t)
}
