// Words of the rules on operands (C11 6.3.2, 6.5).
ghost use Rattle.std.specs.Prelude.{◌≡◌};
ghost use Rattle.qs_syntax.specs.TreeOf.{expr_tree, shape_tree};
ghost use Rattle.qs_types.specs.Expressions.{is_lvalue, is_lvalue_shape, is_assignable, may_cast};
ghost use Rattle.qs_types.specs.TypeOf.{type_tree};
ghost use Rattle.qs_typing_findings.specs.Judging.{are_alike};

use crate::types::{both_integers, same_pointers};
use qs_syntax::{Expr, Shape};
use qs_syntax_vocabulary::{Access, UnaryOperator};
use qs_types::{CType, is_null_constant, is_pointer};

/// Whether it is an lvalue (C11 6.3.2.1p1).
#[cycle(is_lvalue)]
pub fn is_lvalue(e: &Expr) -> bool
    ensures { result ≡ is_lvalue (expr_tree e.now) }
{
    is_lvalue_shape(&e.shape)
}

#[cycle(is_lvalue)]
fn is_lvalue_shape(shape: &Shape) -> bool
    ensures { result ≡ is_lvalue_shape (shape_tree shape.now) }
{
    match shape {
        Shape::Constant(_, _) => false,
        Shape::Text(_) => true,
        Shape::Name(_) => true,
        Shape::Unary(operator, _) => match operator {
            UnaryOperator::Address => false,
            UnaryOperator::Indirect => true,
            UnaryOperator::Plus => false,
            UnaryOperator::Minus => false,
            UnaryOperator::Complement => false,
            UnaryOperator::Not => false,
        },
        Shape::Step(_, _) => false,
        Shape::Cast(_, _) => false,
        Shape::SizeofType(_) => false,
        Shape::SizeofExpr(_) => false,
        Shape::Binary { .. } => false,
        Shape::Assign { .. } => false,
        Shape::Conditional { .. } => false,
        Shape::Comma(_, _) => false,
        Shape::Subscript(_, _) => true,
        Shape::Member { access, object, .. } => match access {
            Access::Dot => is_lvalue(object),
            Access::Arrow => true,
        },
        Shape::Call(_, _) => false,
    }
}

/// Whether an expression whose value has the type `from` may be assigned to the type `to` (C11
/// 6.5.16.1p1).
pub fn is_assignable(to: &CType, e: &Expr, from: &CType) -> bool
    ensures { result ≡ is_assignable (type_tree to.now) (expr_tree e.now) (type_tree from.now) }
{
    both_integers(to, from) || same_pointers(to, from) || is_pointer(to) && is_null_constant(e)
}

/// Whether they are two pointers of one type, or a pointer and a null constant.
pub fn alike_pointers(a: &Expr, t: &CType, b: &Expr, u: &CType) -> bool
    ensures { result ≡ are_alike a.now t.now b.now u.now }
{
    same_pointers(t, u)
        || is_pointer(t) && is_null_constant(b)
        || is_null_constant(a) && is_pointer(u)
}

/// Whether an expression whose value has the type `from` may be cast to the type `to` (C11 6.5.4).
pub fn may_cast(to: &CType, e: &Expr, from: &CType) -> bool
    ensures { result ≡ may_cast (type_tree to.now) (expr_tree e.now) (type_tree from.now) }
{
    both_integers(to, from) || is_pointer(to) && (is_pointer(from) || is_null_constant(e))
}
