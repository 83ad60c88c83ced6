// The types of expressions.
ghost use Rattle.std.specs.Prelude.{◌≡◌};
ghost use Rattle.qs_core.specs.TreeOf.{core_expr};
ghost use Rattle.qs_memory.specs.Operations.{unary_type, binary_type};
ghost use Rattle.qs_core.specs.Expressions.{type_of};

use crate::expressions::CoreExpr;
use qs_memory::{BinaryOperation, Scalar, UnaryOperation, integer_type};

fn unary_type(op: UnaryOperation) -> Scalar
    ensures { result ≡ unary_type op }
{
    match op {
        UnaryOperation::Plus(s) => integer_type(s),
        UnaryOperation::Minus(s) => integer_type(s),
        UnaryOperation::Complement(s) => integer_type(s),
        UnaryOperation::Not => Scalar::Int,
        UnaryOperation::Truth => Scalar::Int,
    }
}

fn binary_type(op: BinaryOperation) -> Scalar
    ensures { result ≡ binary_type op }
{
    match op {
        BinaryOperation::Arithmetic(_, s) => integer_type(s),
        BinaryOperation::Compare(_, _) => Scalar::Int,
        BinaryOperation::Move(_, _, _) => Scalar::Pointer,
        BinaryOperation::Difference(_) => Scalar::Int,
        BinaryOperation::ComparePointers(_) => Scalar::Int,
    }
}

/// The type of an expression's value.
pub fn type_of(e: &CoreExpr) -> Scalar
    ensures { result ≡ type_of (core_expr e.now) }
{
    match e {
        CoreExpr::Literal(s, _) => *s,
        CoreExpr::Null => Scalar::Pointer,
        CoreExpr::Variable(s, _) => *s,
        CoreExpr::Temporary(s, _) => *s,
        CoreExpr::Address(_) => Scalar::Pointer,
        CoreExpr::Load(s, _) => *s,
        CoreExpr::Member(_, _) => Scalar::Pointer,
        CoreExpr::Unary(op, _) => unary_type(*op),
        CoreExpr::Binary(op, _) => binary_type(*op),
        CoreExpr::Convert(s, _) => *s,
        CoreExpr::And(_) => Scalar::Int,
        CoreExpr::Or(_) => Scalar::Int,
        CoreExpr::Conditional(_, a, _) => type_of(a),
    }
}
