// What an expression gives, where it gives a value.
ghost use Rattle.std.specs.Prelude.{◌≡◌};
ghost use Rattle.qs_memory.specs.Scalars as scalars;
ghost use Rattle.qs_core.specs.TreeOf.{core_expr};
ghost use Rattle.qs_lower_expressions.specs.Operands as spec;

use qs_core::CoreExpr;
use qs_memory::{BinaryOperation, Scalar, UnaryOperation, is_integer};

fn is_pointer(s: Scalar) -> bool
    ensures { result ≡ scalars.is_pointer s }
{
    match s {
        Scalar::Char => false,
        Scalar::Int => false,
        Scalar::Unsigned => false,
        Scalar::Pointer => true,
    }
}

fn operation_gives_integer(op: BinaryOperation) -> bool
    ensures { result ≡ spec.operation_gives_integer op }
{
    match op {
        BinaryOperation::Arithmetic(_, _) => true,
        BinaryOperation::Compare(_, _) => true,
        BinaryOperation::Move(_, _, _) => false,
        BinaryOperation::Difference(_) => true,
        BinaryOperation::ComparePointers(_) => true,
    }
}

/// Whether it is an integer, whatever variables hold.
pub fn gives_integer(e: &CoreExpr) -> bool
    ensures { result ≡ spec.gives_integer (core_expr e.now) }
{
    match e {
        CoreExpr::Literal(_, _) => true,
        CoreExpr::Null => false,
        CoreExpr::Variable(_, _) => false,
        CoreExpr::Temporary(_, _) => false,
        CoreExpr::Address(_) => false,
        CoreExpr::Load(s, _) => is_integer(*s),
        CoreExpr::Member(_, _) => false,
        CoreExpr::Unary(_, _) => true,
        CoreExpr::Binary(op, _) => operation_gives_integer(*op),
        CoreExpr::Convert(s, _) => is_integer(*s),
        CoreExpr::And(_) => true,
        CoreExpr::Or(_) => true,
        CoreExpr::Conditional(_, a, b) => gives_integer(a) && gives_integer(b),
    }
}

/// Whether it is a pointer, whatever variables hold.
pub fn gives_pointer(e: &CoreExpr) -> bool
    ensures { result ≡ spec.gives_pointer (core_expr e.now) }
{
    match e {
        CoreExpr::Literal(_, _) => false,
        CoreExpr::Null => true,
        CoreExpr::Variable(_, _) => false,
        CoreExpr::Temporary(_, _) => false,
        CoreExpr::Address(_) => true,
        CoreExpr::Load(s, _) => is_pointer(*s),
        CoreExpr::Member(_, _) => true,
        CoreExpr::Unary(_, _) => false,
        CoreExpr::Binary(op, _) => !operation_gives_integer(*op),
        CoreExpr::Convert(s, _) => is_pointer(*s),
        CoreExpr::And(_) => false,
        CoreExpr::Or(_) => false,
        CoreExpr::Conditional(_, a, b) => gives_pointer(a) && gives_pointer(b),
    }
}

fn operation_gives_truth(op: BinaryOperation) -> bool
    ensures { result ≡ spec.operation_gives_truth op }
{
    match op {
        BinaryOperation::Arithmetic(_, _) => false,
        BinaryOperation::Compare(_, _) => true,
        BinaryOperation::Move(_, _, _) => false,
        BinaryOperation::Difference(_) => false,
        BinaryOperation::ComparePointers(_) => true,
    }
}

fn unary_gives_truth(op: UnaryOperation) -> bool
    ensures { result ≡ spec.unary_gives_truth op }
{
    match op {
        UnaryOperation::Plus(_) => false,
        UnaryOperation::Minus(_) => false,
        UnaryOperation::Complement(_) => false,
        UnaryOperation::Not => true,
        UnaryOperation::Truth => true,
    }
}

/// Whether it is 1 or 0, whatever variables hold (C11 6.5.3.3p5, 6.5.8p6, 6.5.9p3, 6.5.13p3,
/// 6.5.14p3).
pub fn gives_truth(e: &CoreExpr) -> bool
    ensures { result ≡ spec.gives_truth (core_expr e.now) }
{
    match e {
        CoreExpr::Literal(_, n) => *n < 2,
        CoreExpr::Null => false,
        CoreExpr::Variable(_, _) => false,
        CoreExpr::Temporary(_, _) => false,
        CoreExpr::Address(_) => false,
        CoreExpr::Load(_, _) => false,
        CoreExpr::Member(_, _) => false,
        CoreExpr::Unary(op, _) => unary_gives_truth(*op),
        CoreExpr::Binary(op, _) => operation_gives_truth(*op),
        CoreExpr::Convert(s, a) => is_integer(*s) && gives_truth(a),
        CoreExpr::And(_) => true,
        CoreExpr::Or(_) => true,
        CoreExpr::Conditional(_, a, b) => gives_truth(a) && gives_truth(b),
    }
}

/// Whether a conversion to the type changes nothing.
pub fn is_idle(s: Scalar, a: &CoreExpr) -> bool
    ensures { result ≡ spec.is_idle s (core_expr a.now) }
{
    match s {
        Scalar::Char => gives_truth(a),
        Scalar::Int => gives_integer(a),
        Scalar::Unsigned => gives_integer(a),
        Scalar::Pointer => gives_pointer(a),
    }
}
