// The terms and conditions of expressions.
ghost use Rattle.std.specs.Prelude.{◌≡◌, IfOk};
ghost use Rattle.qs_core.specs.TreeOf.{core_expr};
ghost use Rattle.qs_core.specs.TermTreeOf.{GivesTerm, core_term, option_term};
ghost use Rattle.qs_core.specs.TermTrees.{combined, wrapped};
ghost use Rattle.qs_core.specs.Terms.{arithmetic_term};
ghost use Rattle.qs_core.specs.Terms as spec;

use crate::expressions::CoreExpr;
use crate::term::{CoreTerm, TermOperation, TermPair};
use crate::types::type_of;
use qs_base::NoMemory;
use qs_memory::{Arithmetic, BinaryOperation, Scalar, Signedness, UnaryOperation, is_integer};
use std::alloc::Global;

// ---- literals

/// The number that the bits of a literal of this type stand for.
pub fn literal_value(s: Scalar, n: u32) -> i64
    ensures { result ≡ spec.literal_value s n }
{
    match s {
        Scalar::Char => i64::from(n),
        Scalar::Int => i64::from(n.cast_signed()),
        Scalar::Unsigned => i64::from(n),
        Scalar::Pointer => i64::from(n),
    }
}

// The bits of a literal.
fn literal_of(e: &CoreExpr) -> Option<u32>
    ensures { result ≡ spec.literal_of (core_expr e.now) }
{
    match e {
        CoreExpr::Literal(_, n) => Some(*n),
        CoreExpr::Null => None,
        CoreExpr::Variable(_, _) => None,
        CoreExpr::Temporary(_, _) => None,
        CoreExpr::Address(_) => None,
        CoreExpr::Load(_, _) => None,
        CoreExpr::Member(_, _) => None,
        CoreExpr::Unary(_, _) => None,
        CoreExpr::Binary(_, _) => None,
        CoreExpr::Convert(_, _) => None,
        CoreExpr::And(_) => None,
        CoreExpr::Or(_) => None,
        CoreExpr::Conditional(_, _, _) => None,
    }
}

fn divisor(bits: Option<u32>) -> Option<u32>
    ensures { result ≡ spec.divisor bits }
{
    let k = bits?;
    if 1 <= k { Some(k) } else { None }
}

// The power of 2 by which a shift multiplies or divides.
fn power(bits: Option<u32>) -> Option<u32>
    ensures { result ≡ spec.power bits }
{
    let k = bits?;
    if k < 32 { Some(1 << k) } else { None }
}

// ---- operations

fn wrapped(alloc: Global, s: Signedness, t: CoreTerm) -> Result<CoreTerm, NoMemory>
    ensures { IfOk result (λ r. core_term r ≡ wrapped s (core_term t)) }
{
    Ok(CoreTerm::Wrapped(s, Box::new(alloc, t)?))
}

fn combined(
    alloc: Global,
    op: TermOperation,
    left: CoreTerm,
    right: CoreTerm,
) -> Result<CoreTerm, NoMemory>
    ensures { IfOk result (λ r. core_term r ≡ combined op (core_term left) (core_term right)) }
{
    Ok(CoreTerm::Combined(op, Box::new(alloc, TermPair { left, right })?))
}

fn wrapped_both(
    alloc: Global,
    op: TermOperation,
    s: Signedness,
    left: Option<CoreTerm>,
    right: Option<CoreTerm>,
) -> Result<Option<CoreTerm>, NoMemory>
    ensures { GivesTerm (spec.wrapped_both op s (option_term left) (option_term right)) result }
{
    let Some(t) = left else {
        return Ok(None);
    };
    let Some(u) = right else {
        return Ok(None);
    };
    let whole = combined(alloc, op, t, u)?;
    Ok(Some(wrapped(alloc, s, whole)?))
}

fn divided(
    alloc: Global,
    s: Signedness,
    left: Option<CoreTerm>,
    by: Option<u32>,
) -> Result<Option<CoreTerm>, NoMemory>
    ensures { GivesTerm (spec.divided s (option_term left) by) result }
{
    if !is_unsigned(s) {
        return Ok(None);
    }
    let Some(t) = left else {
        return Ok(None);
    };
    let Some(k) = by else {
        return Ok(None);
    };
    Ok(Some(CoreTerm::Divide(Box::new(alloc, t)?, k)))
}

fn remainder(
    alloc: Global,
    s: Signedness,
    left: Option<CoreTerm>,
    by: Option<u32>,
) -> Result<Option<CoreTerm>, NoMemory>
    ensures { GivesTerm (spec.remainder s (option_term left) by) result }
{
    if !is_unsigned(s) {
        return Ok(None);
    }
    let Some(t) = left else {
        return Ok(None);
    };
    let Some(k) = by else {
        return Ok(None);
    };
    Ok(Some(CoreTerm::Remainder(Box::new(alloc, t)?, k)))
}

fn is_unsigned(s: Signedness) -> bool
    ensures { result ≡ spec.is_unsigned s }
{
    match s {
        Signedness::Signed => false,
        Signedness::Unsigned => true,
    }
}

// The product with a number, wrapped.
fn multiple(
    alloc: Global,
    s: Signedness,
    left: Option<CoreTerm>,
    of: Option<u32>,
) -> Result<Option<CoreTerm>, NoMemory>
    ensures { GivesTerm (spec.multiple s (option_term left) of) result }
{
    let Some(t) = left else {
        return Ok(None);
    };
    let Some(k) = of else {
        return Ok(None);
    };
    let k = CoreTerm::Number(i64::from(k));
    let whole = combined(alloc, TermOperation::Multiply, t, k)?;
    Ok(Some(wrapped(alloc, s, whole)?))
}

fn arithmetic_term(
    alloc: Global,
    op: Arithmetic,
    s: Signedness,
    left: Option<CoreTerm>,
    right: Option<CoreTerm>,
    bits: Option<u32>,
) -> Result<Option<CoreTerm>, NoMemory>
    ensures { GivesTerm (arithmetic_term op s (option_term left) (option_term right) bits) result }
{
    match op {
        Arithmetic::Add => wrapped_both(alloc, TermOperation::Add, s, left, right),
        Arithmetic::Subtract => wrapped_both(alloc, TermOperation::Subtract, s, left, right),
        Arithmetic::Multiply => wrapped_both(alloc, TermOperation::Multiply, s, left, right),
        Arithmetic::Divide => divided(alloc, s, left, divisor(bits)),
        Arithmetic::Remainder => remainder(alloc, s, left, divisor(bits)),
        Arithmetic::ShiftLeft => multiple(alloc, s, left, power(bits)),
        Arithmetic::ShiftRight => divided(alloc, s, left, power(bits)),
        Arithmetic::And => Ok(None),
        Arithmetic::Or => Ok(None),
        Arithmetic::Xor => Ok(None),
    }
}

fn binary_term(
    alloc: Global,
    op: BinaryOperation,
    left: Option<CoreTerm>,
    right: Option<CoreTerm>,
    bits: Option<u32>,
) -> Result<Option<CoreTerm>, NoMemory>
    ensures { GivesTerm (spec.binary_term op (option_term left) (option_term right) bits) result }
{
    match op {
        BinaryOperation::Arithmetic(op, s) => arithmetic_term(alloc, op, s, left, right, bits),
        BinaryOperation::Compare(_, _) => Ok(None),
        BinaryOperation::Move(_, _, _) => Ok(None),
        BinaryOperation::Difference(_) => Ok(None),
        BinaryOperation::ComparePointers(_) => Ok(None),
    }
}

fn negative(
    alloc: Global,
    s: Signedness,
    operand: Option<CoreTerm>,
) -> Result<Option<CoreTerm>, NoMemory>
    ensures { GivesTerm (spec.negative s (option_term operand)) result }
{
    let Some(t) = operand else {
        return Ok(None);
    };
    let zero = CoreTerm::Number(0);
    let whole = combined(alloc, TermOperation::Subtract, zero, t)?;
    Ok(Some(wrapped(alloc, s, whole)?))
}

fn unary_term(
    alloc: Global,
    op: UnaryOperation,
    operand: Option<CoreTerm>,
) -> Result<Option<CoreTerm>, NoMemory>
    ensures { GivesTerm (spec.unary_term op (option_term operand)) result }
{
    match op {
        UnaryOperation::Plus(_) => Ok(operand),
        UnaryOperation::Minus(s) => negative(alloc, s, operand),
        UnaryOperation::Complement(_) => Ok(None),
        UnaryOperation::Not => Ok(None),
        UnaryOperation::Truth => Ok(None),
    }
}

fn from_char(to: Scalar, t: CoreTerm) -> Option<CoreTerm>
    ensures { option_term result ≡ spec.from_char to (core_term t) }
{
    match to {
        Scalar::Char => Some(t),
        Scalar::Int => Some(t),
        Scalar::Unsigned => Some(t),
        Scalar::Pointer => None,
    }
}

fn from_int(alloc: Global, to: Scalar, t: CoreTerm) -> Result<Option<CoreTerm>, NoMemory>
    ensures { GivesTerm (spec.from_int to (core_term t)) result }
{
    match to {
        Scalar::Char => Ok(Some(CoreTerm::Remainder(Box::new(alloc, t)?, 256))),
        Scalar::Int => Ok(Some(t)),
        Scalar::Unsigned => Ok(Some(wrapped(alloc, Signedness::Unsigned, t)?)),
        Scalar::Pointer => Ok(None),
    }
}

fn from_unsigned(alloc: Global, to: Scalar, t: CoreTerm) -> Result<Option<CoreTerm>, NoMemory>
    ensures { GivesTerm (spec.from_unsigned to (core_term t)) result }
{
    match to {
        Scalar::Char => Ok(Some(CoreTerm::Remainder(Box::new(alloc, t)?, 256))),
        Scalar::Int => Ok(Some(wrapped(alloc, Signedness::Signed, t)?)),
        Scalar::Unsigned => Ok(Some(t)),
        Scalar::Pointer => Ok(None),
    }
}

fn conversion_term(
    alloc: Global,
    from: Scalar,
    to: Scalar,
    operand: Option<CoreTerm>,
) -> Result<Option<CoreTerm>, NoMemory>
    ensures { GivesTerm (spec.conversion_term from to (option_term operand)) result }
{
    let Some(t) = operand else {
        return Ok(None);
    };
    match from {
        Scalar::Char => Ok(from_char(to, t)),
        Scalar::Int => from_int(alloc, to, t),
        Scalar::Unsigned => from_unsigned(alloc, to, t),
        Scalar::Pointer => Ok(None),
    }
}

// ---- terms

// The term of a literal, a variable or a temporary.
fn if_integer(s: Scalar, t: CoreTerm) -> Option<CoreTerm>
    ensures { option_term result ≡ spec.if_integer s (core_term t) }
{
    if is_integer(s) { Some(t) } else { None }
}

/// The term of an expression, where it has one. It is as high as the expression.
pub fn term_of(alloc: Global, e: &CoreExpr) -> Result<Option<CoreTerm>, NoMemory>
    ensures { GivesTerm (spec.term_of (core_expr e.now)) result }
{
    match e {
        CoreExpr::Literal(s, n) => { Ok(if_integer(*s, CoreTerm::Number(literal_value(*s, *n)))) }
        CoreExpr::Null => Ok(None),
        CoreExpr::Variable(s, x) => Ok(if_integer(*s, CoreTerm::Variable(*s, *x))),
        CoreExpr::Temporary(s, k) => Ok(if_integer(*s, CoreTerm::Temporary(*s, *k))),
        CoreExpr::Address(_) => Ok(None),
        CoreExpr::Load(_, _) => Ok(None),
        CoreExpr::Member(_, _) => Ok(None),
        CoreExpr::Unary(op, a) => unary_term(alloc, *op, term_of(alloc, a)?),
        CoreExpr::Binary(op, p) => {
            let left = term_of(alloc, &p.left)?;
            let right = term_of(alloc, &p.right)?;
            binary_term(alloc, *op, left, right, literal_of(&p.right))
        }
        CoreExpr::Convert(s, a) => conversion_term(alloc, type_of(a), *s, term_of(alloc, a)?),
        CoreExpr::And(_) => Ok(None),
        CoreExpr::Or(_) => Ok(None),
        CoreExpr::Conditional(_, _, _) => Ok(None),
    }
}
