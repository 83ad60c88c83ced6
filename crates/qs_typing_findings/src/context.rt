// What is known at a place of a unit (C11 6.2.1).
use crate::scopes::Scopes;
use qs_types::{CType, Env, TypeNames};

mod methods;
mod switches;

pub use methods::{is_void_base, starred, struct_at};

/// What a label speaks of in the block of a switch (C11 6.8.4.2p2, p3): the promoted type of the
/// operand, where that is an integer, the values of the `case`s before it, converted to that type,
/// and whether a `default` is before it.
#[derive(Drop)]
pub struct Labels {
    operand: Option<CType>,
    values: Vec<u32>,
    has_default: bool,
}

/// What a scope stands in: how many names are outside of the scope around it, whether a loop and a
/// switch are around that one, and its labels.
#[derive(Drop)]
pub struct Around {
    names: usize,
    in_loop: bool,
    in_switch: bool,
    labels: Labels,
}

/// The structs, the names of types, the other names in scope, the result of the function, whether
/// a loop and a switch are around the place, and the labels of the switch whose block is the
/// innermost scope.
#[derive(Drop)]
pub struct Context {
    structs: Env,
    type_names: TypeNames,
    names: Scopes,
    result: Option<CType>,
    in_loop: bool,
    in_switch: bool,
    labels: Labels,
}
