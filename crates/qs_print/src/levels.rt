// How weakly expressions bind.
ghost use Rattle.std.specs.Prelude.{◌≡◌};
ghost use Rattle.qs_print.specs.Levels.{level, shape_level, step_level};
ghost use Rattle.qs_syntax.specs.TreeOf.{expr_tree, shape_tree};

use qs_syntax::{Expr, Shape};
use qs_syntax_vocabulary::{
    ASSIGNMENT_PRECEDENCE, COMMA_PRECEDENCE, CONDITIONAL_PRECEDENCE, StepOperator, WEAKEST,
};

/// The level of a postfix expression.
pub const POSTFIX: u32 = 0;

/// The level of a unary expression.
pub const UNARY: u32 = 1;

/// The level of a cast.
pub const CAST: u32 = 2;

/// The level of `||`.
pub const OR: u32 = WEAKEST + CAST;

/// The level of a conditional expression.
pub const CONDITIONAL: u32 = CONDITIONAL_PRECEDENCE + CAST;

/// The level of an assignment.
pub const ASSIGNMENT: u32 = ASSIGNMENT_PRECEDENCE + CAST;

/// The level of a comma.
pub const COMMA: u32 = COMMA_PRECEDENCE + CAST;

/// The level of a step: behind its operand that of a postfix expression, and before it that of a
/// unary one.
pub fn step_level(operator: StepOperator) -> u32
    ensures { result ≡ step_level operator }
{
    if operator.stands_before() {
        UNARY
    } else {
        POSTFIX
    }
}

fn shape_level(shape: &Shape) -> u32
    ensures { result ≡ shape_level (shape_tree shape.now) }
{
    match shape {
        Shape::Constant(_, _)
        | Shape::Text(_)
        | Shape::Name(_)
        | Shape::Subscript(_, _)
        | Shape::Member { .. }
        | Shape::Call(_, _) => POSTFIX,
        Shape::Step(operator, _) => step_level(*operator),
        Shape::Unary(_, _) | Shape::SizeofType(_) | Shape::SizeofExpr(_) => UNARY,
        Shape::Cast(_, _) => CAST,
        Shape::Binary { operator, .. } => operator.precedence() + CAST,
        Shape::Conditional { .. } => CONDITIONAL,
        Shape::Assign { .. } => ASSIGNMENT,
        Shape::Comma(_, _) => COMMA,
    }
}

/// How weakly an expression binds.
pub fn level(e: &Expr) -> u32
    ensures { result ≡ level (expr_tree e.now) }
{
    shape_level(&e.shape)
}
