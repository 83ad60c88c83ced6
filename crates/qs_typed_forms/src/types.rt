// Types of values, and conversions between these (C11 6.3).
ghost use Rattle.std.specs.Prelude.{◌≡◌, IfOk};
ghost use Rattle.qs_memory.specs.Scalars.{same_scalar};
ghost use Rattle.qs_meaning.specs.Conversions.{conversion};
ghost use Rattle.qs_meaning.specs.Operations.{signedness};
ghost use Rattle.qs_types.specs.Conversions.{arithmetic, common, decayed};
ghost use Rattle.qs_types.specs.TypeOf.{type_tree};
ghost use Rattle.qs_types.specs.Types.{referenced};
ghost use Rattle.qs_typed_forms.specs.Between.{between};
ghost use Rattle.qs_typed_trees.specs.TreeOf.{conversion_tree};

use qs_base::NoMemory;
use qs_memory::{Scalar, Signedness};
use qs_typed_trees::{Conversion, scalar_of};
use qs_types::{CType, is_pointer, is_unsigned};
use std::alloc::Global;

/// The type that a pointer leads to, and that of an array's elements; of another type the type
/// itself.
pub fn referenced(t: &CType) -> &CType
    ensures { type_tree result.now ≡ referenced (type_tree t.now) }
{
    match t {
        CType::Int => t,
        CType::Unsigned => t,
        CType::Char => t,
        CType::Void => t,
        CType::Pointer(to) => to,
        CType::Array(element, _) => element,
        CType::Struct(_) => t,
    }
}

/// The type of the value: an array turns into a pointer to its first element (C11 6.3.2.1p3).
pub fn decayed(alloc: Global, t: &CType) -> Result<CType, NoMemory>
    ensures { IfOk result (λ u. type_tree u ≡ decayed (type_tree t.now)) }
{
    match t {
        CType::Int => Ok(CType::Int),
        CType::Unsigned => Ok(CType::Unsigned),
        CType::Char => Ok(CType::Char),
        CType::Void => Ok(CType::Void),
        CType::Pointer(to) => {
            let to = to.copy(alloc)?;
            Ok(CType::Pointer(Box::new(alloc, to)?))
        }
        CType::Array(element, _) => {
            let to = element.copy(alloc)?;
            Ok(CType::Pointer(Box::new(alloc, to)?))
        }
        CType::Struct(k) => Ok(CType::Struct(*k)),
    }
}

/// The type that two operands have together, one of which may be a pointer (C11 6.5.6p8, 6.5.15p5);
/// `both` is that of two integers.
pub fn common<'a>(t: &'a CType, u: &'a CType, both: &'a CType) -> &'a CType
    requires { type_tree both.now ≡ arithmetic (type_tree t.now) (type_tree u.now) }
    ensures { type_tree result.now ≡ common (type_tree t.now) (type_tree u.now) }
{
    if is_pointer(t) {
        t
    } else if is_pointer(u) {
        u
    } else {
        both
    }
}

/// A promoted type is `int` or `unsigned`.
pub fn signedness(t: &CType) -> Signedness
    ensures { result ≡ signedness (type_tree t.now) }
{
    if is_unsigned(t) {
        Signedness::Unsigned
    } else {
        Signedness::Signed
    }
}

fn same_scalar(s: Scalar, r: Scalar) -> bool
    ensures { result ≡ same_scalar s r }
{
    s == r
}

/// A value of one scalar type as a value of another (C11 6.3.1.3, 6.3.2.3).
pub fn between(from: Scalar, to: Scalar) -> Conversion
    ensures { conversion_tree result ≡ between from to }
{
    if same_scalar(from, to) {
        Conversion::Unchanged
    } else {
        Conversion::Converted(from, to)
    }
}

/// A value of one type as a value of another (C11 6.3.1.3, 6.3.2.3).
pub fn conversion(from: &CType, to: &CType) -> Conversion
    ensures { conversion_tree result ≡ conversion (type_tree from.now) (type_tree to.now) }
{
    between(scalar_of(from), scalar_of(to))
}
