// Types of values and of operands (C11 6.3, 6.5).
ghost use Rattle.std.specs.Prelude.{◌≡◌, IfOk, option_map};
ghost use Rattle.qs_types.specs.Conversions.{common, decayed};
ghost use Rattle.qs_types.specs.EnvOf.{env_tree};
ghost use Rattle.qs_types.specs.Expressions.{both_integers, same_pointers, is_object_pointer};
ghost use Rattle.qs_types.specs.Expressions.{type_or_void};
ghost use Rattle.qs_types.specs.TypeOf.{type_tree};
ghost use Rattle.qs_types.specs.Types.{referenced};
ghost use Rattle.qs_typing_findings.specs.PartsOf.{option_type};

use qs_base::NoMemory;
use qs_types::{CType, Env, arithmetic, is_complete, is_integer, is_pointer};
use std::alloc::Global;

/// The type that a pointer leads to, and that of an array's elements; of another type the type
/// itself.
pub fn referenced(t: CType) -> CType
    ensures { type_tree result ≡ referenced (type_tree t) }
{
    match t {
        CType::Int => CType::Int,
        CType::Unsigned => CType::Unsigned,
        CType::Char => CType::Char,
        CType::Void => CType::Void,
        CType::Pointer(to) => Box::into_inner(to),
        CType::Array(element, _) => Box::into_inner(element),
        CType::Struct(k) => CType::Struct(k),
    }
}

/// The type, or `void` where there is none.
pub fn type_or_void(t: Option<CType>) -> CType
    ensures { type_tree result ≡ type_or_void (option_map type_tree t) }
{
    match t {
        None => CType::Void,
        Some(t) => t,
    }
}

/// The type of the value: an array turns into a pointer to its first element (C11 6.3.2.1p3).
pub fn decayed(t: CType) -> CType
    ensures { type_tree result ≡ decayed (type_tree t) }
{
    match t {
        CType::Int => CType::Int,
        CType::Unsigned => CType::Unsigned,
        CType::Char => CType::Char,
        CType::Void => CType::Void,
        CType::Pointer(to) => CType::Pointer(to),
        CType::Array(element, _) => CType::Pointer(element),
        CType::Struct(k) => CType::Struct(k),
    }
}

/// The type that two operands have together, one of which may be a pointer (C11 6.5.6p8, 6.5.15p5).
pub fn common(t: CType, u: CType) -> CType
    ensures { type_tree result ≡ common (type_tree t) (type_tree u) }
{
    if is_pointer(&t) {
        t
    } else if is_pointer(&u) {
        u
    } else {
        arithmetic(&t, &u)
    }
}

/// Whether both are integer types.
pub fn both_integers(t: &CType, u: &CType) -> bool
    ensures { result ≡ both_integers (type_tree t.now) (type_tree u.now) }
{
    is_integer(t) && is_integer(u)
}

/// Whether both are the same pointer type.
pub fn same_pointers(t: &CType, u: &CType) -> bool
    ensures { result ≡ same_pointers (type_tree t.now) (type_tree u.now) }
{
    is_pointer(t) && t.same(u)
}

/// Whether it is a pointer to a complete type.
pub fn is_object_pointer(types: &Env, t: &CType) -> bool
    ensures { result ≡ is_object_pointer (env_tree types.now) (type_tree t.now) }
{
    match t {
        CType::Int => false,
        CType::Unsigned => false,
        CType::Char => false,
        CType::Void => false,
        CType::Pointer(to) => is_complete(types, to),
        CType::Array(_, _) => false,
        CType::Struct(_) => false,
    }
}

/// The same type, where there is one.
pub fn copied(alloc: Global, t: &Option<CType>) -> Result<Option<CType>, NoMemory>
    ensures { IfOk result (λ r. option_type r ≡ option_type t.now) }
{
    match t {
        None => Ok(None),
        Some(t) => Ok(Some(t.copy(alloc)?)),
    }
}
