// Nodes of expressions, not yet numbered.
ghost use Rattle.qs_syntax.specs.Trees.{constant, text, name, sizeof_type, unary, step, cast};
ghost use Rattle.qs_syntax.specs.Trees.{sizeof_expr, binary, assign, comma, subscript};
ghost use Rattle.qs_syntax.specs.Trees.{member, call, exprs_of};
ghost use Rattle.qs_syntax.specs.TreeOf.{expr_tree};
ghost use Rattle.qs_parser_expressions.specs.View.{boxed_expr, listed};
ghost use Rattle.qs_parser_expressions.specs.Nodes.{IsExpr, conditional_of};

use qs_base::Name;
use qs_syntax::{Expr, Node, Shape, TypeName};
use qs_syntax_vocabulary::{
    Access, AssignmentOperator, BinaryOperator, StepOperator, Text, UnaryOperator,
};

/// A number or character.
pub fn constant(token: u32, value: u32, is_unsigned: bool) -> Expr
    ensures { IsExpr result token (constant value is_unsigned) }
{
    Expr {
        node: Node { id: 0, token },
        shape: Shape::Constant(value, is_unsigned),
    }
}

/// A string literal.
pub fn text(token: u32, bytes: Text) -> Expr
    ensures { IsExpr result token (text bytes) }
{
    Expr {
        node: Node { id: 0, token },
        shape: Shape::Text(bytes),
    }
}

/// The name of a variable.
pub fn name(token: u32, bytes: Name) -> Expr
    ensures { IsExpr result token (name bytes) }
{
    Expr {
        node: Node { id: 0, token },
        shape: Shape::Name(bytes),
    }
}

/// `sizeof` of a type.
pub fn sizeof_type(token: u32, of: TypeName) -> Expr
    ensures { IsExpr result token (sizeof_type of) }
{
    Expr {
        node: Node { id: 0, token },
        shape: Shape::SizeofType(of),
    }
}

/// A unary operator and its operand.
pub fn unary(token: u32, operator: UnaryOperator, part: Box<Expr>) -> Expr
    ensures { IsExpr result token (unary operator (boxed_expr part)) }
{
    Expr {
        node: Node { id: 0, token },
        shape: Shape::Unary(operator, part),
    }
}

/// A step by one and its operand.
pub fn step(token: u32, operator: StepOperator, part: Box<Expr>) -> Expr
    ensures { IsExpr result token (step operator (boxed_expr part)) }
{
    Expr {
        node: Node { id: 0, token },
        shape: Shape::Step(operator, part),
    }
}

/// A cast and its operand.
pub fn cast(token: u32, to: TypeName, part: Box<Expr>) -> Expr
    ensures { IsExpr result token (cast to (boxed_expr part)) }
{
    Expr {
        node: Node { id: 0, token },
        shape: Shape::Cast(to, part),
    }
}

/// `sizeof` and its operand.
pub fn sizeof_expr(token: u32, part: Box<Expr>) -> Expr
    ensures { IsExpr result token (sizeof_expr (boxed_expr part)) }
{
    Expr {
        node: Node { id: 0, token },
        shape: Shape::SizeofExpr(part),
    }
}

/// An operator between two operands.
pub fn binary(token: u32, operator: BinaryOperator, left: Box<Expr>, right: Box<Expr>) -> Expr
    ensures { IsExpr result token (binary operator (boxed_expr left) (boxed_expr right)) }
{
    Expr {
        node: Node { id: 0, token },
        shape: Shape::Binary {
            operator,
            left,
            right,
        },
    }
}

/// An assignment and its two sides.
pub fn assign(token: u32, operator: AssignmentOperator, left: Box<Expr>, right: Box<Expr>) -> Expr
    ensures { IsExpr result token (assign operator (boxed_expr left) (boxed_expr right)) }
{
    Expr {
        node: Node { id: 0, token },
        shape: Shape::Assign {
            operator,
            left,
            right,
        },
    }
}

/// A conditional: its condition and the two expressions behind it.
pub fn conditional(token: u32, condition: Box<Expr>, then: Box<Expr>, otherwise: Box<Expr>) -> Expr
    ensures { IsExpr result token (conditional_of condition then otherwise) }
{
    Expr {
        node: Node { id: 0, token },
        shape: Shape::Conditional {
            condition,
            then,
            otherwise,
        },
    }
}

/// A comma between two expressions.
pub fn comma(token: u32, left: Box<Expr>, right: Box<Expr>) -> Expr
    ensures { IsExpr result token (comma (boxed_expr left) (boxed_expr right)) }
{
    Expr {
        node: Node { id: 0, token },
        shape: Shape::Comma(left, right),
    }
}

/// An element of an array.
pub fn subscript(token: u32, array: Box<Expr>, at: Box<Expr>) -> Expr
    ensures { IsExpr result token (subscript (boxed_expr array) (boxed_expr at)) }
{
    Expr {
        node: Node { id: 0, token },
        shape: Shape::Subscript(array, at),
    }
}

/// A member of a struct.
pub fn member(token: u32, access: Access, object: Box<Expr>, name: Name) -> Expr
    ensures { IsExpr result token (member access (boxed_expr object) name) }
{
    Expr {
        node: Node { id: 0, token },
        shape: Shape::Member {
            access,
            object,
            name,
        },
    }
}

/// A call.
pub fn call(token: u32, function: Name, arguments: Vec<Expr>) -> Expr
    ensures { IsExpr result token (call function (exprs_of (listed expr_tree arguments))) }
{
    Expr {
        node: Node { id: 0, token },
        shape: Shape::Call(function, arguments),
    }
}
