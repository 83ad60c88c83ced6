// The types that declarations begin with, and the names of types.
ghost use Rattle.std.specs.Prelude.{◌≡◌, IfOk};

use qs_base::{Name, NoMemory};
use std::alloc::Global;

/// The type that a declaration begins with (C11 6.7.2). `const` and `static` leave no trace.
#[derive(Drop)]
pub enum Base {
    /// `void`
    Void,
    /// `int`, `signed` or `signed int`
    Int,
    /// `unsigned` or `unsigned int`
    Unsigned,
    /// `char` or `unsigned char`
    Char,
    /// `struct` and its tag
    Struct(Name),
    /// A type name, which a `typedef` before it declares (C11 6.7.8)
    Named(Name),
}

impl Base {
    /// A copy.
    pub fn copy(&self, alloc: Global) -> Result<Base, NoMemory>
        ensures { IfOk result (λ base. base ≡ self.now) }
    {
        match self {
            Base::Void => Ok(Base::Void),
            Base::Int => Ok(Base::Int),
            Base::Unsigned => Ok(Base::Unsigned),
            Base::Char => Ok(Base::Char),
            Base::Struct(name) => Ok(Base::Struct(name.copy(alloc)?)),
            Base::Named(name) => Ok(Base::Named(name.copy(alloc)?)),
        }
    }
}

/// The name of a type (C11 6.7.7).
#[derive(Drop)]
pub struct TypeName {
    /// What it begins with.
    pub base: Base,
    /// The count of its stars.
    pub stars: u32,
}

impl TypeName {
    /// A copy.
    pub fn copy(&self, alloc: Global) -> Result<TypeName, NoMemory>
        ensures { IfOk result (λ name. name ≡ self.now) }
    {
        Ok(TypeName {
            base: self.base.copy(alloc)?,
            stars: self.stars,
        })
    }
}
