// Which operation an operator stands for at the types of its operands (C11 6.5.5 to 6.5.12,
// 6.5.16.2).
ghost use Rattle.std.specs.Prelude.{◌≡◌};
ghost use Rattle.qs_meaning.specs.Operations.{apart, combined, compared, comparison_of};
ghost use Rattle.qs_meaning.specs.Operations.{element_size, moved, moved_from_left, operation_of};
ghost use Rattle.qs_meaning.specs.Operations.{shifted, subtracted, summed};
ghost use Rattle.qs_types.specs.EnvOf.{env_tree};
ghost use Rattle.qs_types.specs.TypeOf.{type_tree};
ghost use Rattle.qs_typed_operators.specs.Parts.{GivesOperation, IsOperation, in_scalars, operated_tree};
ghost use Rattle.qs_typed_forms.specs.Results.{Gives, itself};

use qs_base::NoMemory;
use qs_memory::{Arithmetic, BinaryOperation, Comparison, Direction, Scalar};
use qs_syntax_vocabulary::BinaryOperator;
use qs_typed_forms::{common, conversion, referenced, signedness, size_in};
use qs_typed_trees::{Conversion, Order, scalar_of};
use qs_types::{CType, Env, arithmetic, is_pointer, promoted};

/// The operation, what its operands are converted to before it, the scalar type of its result, and
/// the order in which it takes its operands.
#[derive(Clone, Copy)]
pub struct Operated {
    /// the operation
    pub operation: BinaryOperation,
    /// what happens to the left operand before
    pub left: Conversion,
    /// what happens to the right operand before
    pub right: Conversion,
    /// the type of the result
    pub scalar: Scalar,
    /// which operand it takes first
    pub order: Order,
}

/// Two integers after the usual arithmetic conversions.
fn combined(operator: Arithmetic, t: &CType, u: &CType) -> Operated
    ensures { IsOperation (combined operator) t.now u.now result }
{
    let both = arithmetic(t, u);
    Operated {
        operation: BinaryOperation::Arithmetic(operator, signedness(&both)),
        left: conversion(t, &both),
        right: conversion(u, &both),
        scalar: scalar_of(&both),
        order: Order::AsWritten,
    }
}

/// A shift: each operand is promoted (C11 6.5.7p3).
fn shifted(operator: Arithmetic, t: &CType, u: &CType) -> Operated
    ensures { IsOperation (shifted operator) t.now u.now result }
{
    let left = promoted(t);
    let right = promoted(u);
    Operated {
        operation: BinaryOperation::Arithmetic(operator, signedness(&left)),
        left: conversion(t, &left),
        right: conversion(u, &right),
        scalar: scalar_of(&left),
        order: Order::AsWritten,
    }
}

fn comparison_of(comparison: Comparison, t: &CType) -> BinaryOperation
    ensures { result ≡ comparison_of comparison (type_tree t.now) }
{
    if is_pointer(t) {
        BinaryOperation::ComparePointers(comparison)
    } else {
        BinaryOperation::Compare(comparison, signedness(t))
    }
}

/// A comparison of integers or of pointers (C11 6.5.8, 6.5.9).
fn compared(comparison: Comparison, t: &CType, u: &CType) -> Operated
    ensures { IsOperation (compared comparison) t.now u.now result }
{
    let both = arithmetic(t, u);
    let common = common(t, u, &both);
    Operated {
        operation: comparison_of(comparison, common),
        left: conversion(t, common),
        right: conversion(u, common),
        scalar: Scalar::Int,
        order: Order::AsWritten,
    }
}

/// A pointer that the integer on its right moves (C11 6.5.6p8).
fn moved(direction: Direction, element: u32, t: &CType, u: &CType) -> Operated
    ensures { IsOperation (moved direction element) t.now u.now result }
{
    let right = promoted(u);
    Operated {
        operation: BinaryOperation::Move(direction, signedness(&right), element),
        left: Conversion::Unchanged,
        right: conversion(u, &right),
        scalar: scalar_of(t),
        order: Order::AsWritten,
    }
}

/// A pointer that the integer on its left moves.
fn moved_from_left(element: u32, t: &CType, u: &CType) -> Operated
    ensures { IsOperation (moved_from_left element) t.now u.now result }
{
    let left = promoted(t);
    Operated {
        operation: BinaryOperation::Move(Direction::Up, signedness(&left), element),
        left: conversion(t, &left),
        right: Conversion::Unchanged,
        scalar: scalar_of(u),
        order: Order::Exchanged,
    }
}

/// Two pointers (C11 6.5.6p9).
fn apart(element: u32) -> Operated
    ensures { operated_tree result ≡ in_scalars (apart element) }
{
    Operated {
        operation: BinaryOperation::Difference(element),
        left: Conversion::Unchanged,
        right: Conversion::Unchanged,
        scalar: Scalar::Int,
        order: Order::AsWritten,
    }
}

/// The size of what a pointer leads to.
fn element_size(env: &Env, t: &CType) -> Result<u32, NoMemory>
    ensures { Gives itself (element_size (env_tree env.now) (type_tree t.now)) result }
{
    size_in(env, referenced(t))
}

fn summed(env: &Env, t: &CType, u: &CType) -> Result<Operated, NoMemory>
    ensures { GivesOperation (summed (env_tree env.now)) t.now u.now result }
{
    if is_pointer(t) {
        let element = element_size(env, t)?;
        Ok(moved(Direction::Up, element, t, u))
    } else if is_pointer(u) {
        let element = element_size(env, u)?;
        Ok(moved_from_left(element, t, u))
    } else {
        Ok(combined(Arithmetic::Add, t, u))
    }
}

fn subtracted(env: &Env, t: &CType, u: &CType) -> Result<Operated, NoMemory>
    ensures { GivesOperation (subtracted (env_tree env.now)) t.now u.now result }
{
    if is_pointer(u) {
        let element = element_size(env, t)?;
        Ok(apart(element))
    } else if is_pointer(t) {
        let element = element_size(env, t)?;
        Ok(moved(Direction::Down, element, t, u))
    } else {
        Ok(combined(Arithmetic::Subtract, t, u))
    }
}

/// What an operator between two values of these types does. `&&` and `||` are no operations.
pub fn operation_of(
    env: &Env,
    operator: BinaryOperator,
    t: &CType,
    u: &CType,
) -> Result<Operated, NoMemory>
    ensures { GivesOperation (operation_of (env_tree env.now) operator) t.now u.now result }
{
    match operator {
        BinaryOperator::Multiply => Ok(combined(Arithmetic::Multiply, t, u)),
        BinaryOperator::Divide => Ok(combined(Arithmetic::Divide, t, u)),
        BinaryOperator::Remainder => Ok(combined(Arithmetic::Remainder, t, u)),
        BinaryOperator::Add => summed(env, t, u),
        BinaryOperator::Subtract => subtracted(env, t, u),
        BinaryOperator::ShiftLeft => Ok(shifted(Arithmetic::ShiftLeft, t, u)),
        BinaryOperator::ShiftRight => Ok(shifted(Arithmetic::ShiftRight, t, u)),
        BinaryOperator::Less => Ok(compared(Comparison::Less, t, u)),
        BinaryOperator::Greater => Ok(compared(Comparison::Greater, t, u)),
        BinaryOperator::LessEqual => Ok(compared(Comparison::LessOrEqual, t, u)),
        BinaryOperator::GreaterEqual => Ok(compared(Comparison::GreaterOrEqual, t, u)),
        BinaryOperator::Equal => Ok(compared(Comparison::Equal, t, u)),
        BinaryOperator::NotEqual => Ok(compared(Comparison::NotEqual, t, u)),
        BinaryOperator::BitAnd => Ok(combined(Arithmetic::And, t, u)),
        BinaryOperator::BitXor => Ok(combined(Arithmetic::Xor, t, u)),
        BinaryOperator::BitOr => Ok(combined(Arithmetic::Or, t, u)),
        BinaryOperator::And => Err(NoMemory),
        BinaryOperator::Or => Err(NoMemory),
    }
}
