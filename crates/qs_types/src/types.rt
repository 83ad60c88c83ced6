// Types (C11 6.2.5).
ghost use Rattle.std.specs.Prelude.{◌≡◌, IfOk};
ghost use Rattle.qs_types.specs.Types.{same_type};
ghost use Rattle.qs_types.specs.TypeOf.{type_tree};

use qs_base::NoMemory;
use std::alloc::Global;

/// A type (C11 6.2.5).
#[derive(Drop)]
pub enum CType {
    /// `int`
    Int,
    /// `unsigned`
    Unsigned,
    /// `char`, which has the values of `unsigned char`.
    Char,
    /// `void`
    Void,
    /// A pointer to this type.
    Pointer(Box<CType>),
    /// An array: the type of its elements, and how many they are.
    Array(Box<CType>, u32),
    /// A struct: its place in the `Env`.
    Struct(u32),
}

impl CType {
    /// A copy.
    pub fn copy(&self, alloc: Global) -> Result<CType, NoMemory>
        ensures { IfOk result (λ copy. type_tree copy ≡ type_tree self.now) }
    {
        match self {
            CType::Int => Ok(CType::Int),
            CType::Unsigned => Ok(CType::Unsigned),
            CType::Char => Ok(CType::Char),
            CType::Void => Ok(CType::Void),
            CType::Pointer(to) => Ok(CType::Pointer(Box::new(alloc, to.copy(alloc)?)?)),
            CType::Array(element, length) => Ok(CType::Array(
                Box::new(alloc, element.copy(alloc)?)?,
                *length,
            )),
            CType::Struct(k) => Ok(CType::Struct(*k)),
        }
    }

    /// Whether the two are the same type (C11 6.2.7).
    pub fn same(&self, other: &CType) -> bool
        ensures { result ≡ same_type (type_tree self.now) (type_tree other.now) }
    {
        match self {
            CType::Int => match other {
                CType::Int => true,
                CType::Unsigned => false,
                CType::Char => false,
                CType::Void => false,
                CType::Pointer(_) => false,
                CType::Array(_, _) => false,
                CType::Struct(_) => false,
            },
            CType::Unsigned => match other {
                CType::Unsigned => true,
                CType::Int => false,
                CType::Char => false,
                CType::Void => false,
                CType::Pointer(_) => false,
                CType::Array(_, _) => false,
                CType::Struct(_) => false,
            },
            CType::Char => match other {
                CType::Char => true,
                CType::Int => false,
                CType::Unsigned => false,
                CType::Void => false,
                CType::Pointer(_) => false,
                CType::Array(_, _) => false,
                CType::Struct(_) => false,
            },
            CType::Void => match other {
                CType::Void => true,
                CType::Int => false,
                CType::Unsigned => false,
                CType::Char => false,
                CType::Pointer(_) => false,
                CType::Array(_, _) => false,
                CType::Struct(_) => false,
            },
            CType::Pointer(t) => match other {
                CType::Pointer(u) => t.same(u),
                CType::Int => false,
                CType::Unsigned => false,
                CType::Char => false,
                CType::Void => false,
                CType::Array(_, _) => false,
                CType::Struct(_) => false,
            },
            CType::Array(t, n) => match other {
                CType::Array(u, m) => n == m && t.same(u),
                CType::Int => false,
                CType::Unsigned => false,
                CType::Char => false,
                CType::Void => false,
                CType::Pointer(_) => false,
                CType::Struct(_) => false,
            },
            CType::Struct(k) => match other {
                CType::Struct(j) => k == j,
                CType::Int => false,
                CType::Unsigned => false,
                CType::Char => false,
                CType::Void => false,
                CType::Pointer(_) => false,
                CType::Array(_, _) => false,
            },
        }
    }
}
