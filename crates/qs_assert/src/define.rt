// Definitions, and what is computed of an assertion.
use crate::Assertion;
use qs_base::Name;

/// A definition: a name for an assertion.
#[derive(Drop)]
pub struct Define {
    /// The name.
    pub name: Name,
    /// What it stands for.
    pub body: Assertion,
}

/// The value of an assertion.
#[derive(Clone, Copy, PartialEq, Eq, Debug)]
pub enum Amount {
    /// A natural number.
    Finite(u128),
    /// Infinity.
    Infinite,
    /// A part that is evaluated is finite and outside -(2^127 - 1) to 2^127 - 1.
    Wide,
}
