// Copies of expressions (C11 6.5).
ghost use Rattle.std.specs.Prelude.{◌≡◌, IfOk, map};
ghost use Rattle.qs_syntax.specs.TreeOf.{shape_tree, expr_tree};

use qs_base::NoMemory;
use qs_syntax::{Expr, Shape};
use std::alloc::Global;

/// A copy of an expression, with the same numbers and tokens of its nodes.
#[cycle(copy_expr)]
pub fn copy_expr(alloc: Global, e: &Expr) -> Result<Expr, NoMemory>
    ensures { IfOk result (λ to. expr_tree to ≡ expr_tree e.now) }
{
    let shape = copy_shape(alloc, &e.shape)?;
    Ok(Expr {
        node: e.node,
        shape,
    })
}

#[cycle(copy_expr)]
fn copy_boxed(alloc: Global, e: &Expr) -> Result<Box<Expr>, NoMemory>
    ensures { IfOk result (λ to. expr_tree to.value ≡ expr_tree e.now) }
{
    let to = copy_expr(alloc, e)?;
    Ok(Box::new(alloc, to)?)
}

#[cycle(copy_expr)]
fn copy_shape(alloc: Global, shape: &Shape) -> Result<Shape, NoMemory>
    ensures { IfOk result (λ to. shape_tree to ≡ shape_tree shape.now) }
{
    match shape {
        Shape::Constant(value, is_unsigned) => Ok(Shape::Constant(*value, *is_unsigned)),
        Shape::Text(text) => Ok(Shape::Text(text.copy(alloc)?)),
        Shape::Name(name) => Ok(Shape::Name(name.copy(alloc)?)),
        Shape::Unary(operator, a) => Ok(Shape::Unary(*operator, copy_boxed(alloc, a)?)),
        Shape::Step(operator, a) => Ok(Shape::Step(*operator, copy_boxed(alloc, a)?)),
        Shape::Cast(type_name, a) => Ok(Shape::Cast(type_name.copy(alloc)?, copy_boxed(alloc, a)?)),
        Shape::SizeofType(type_name) => Ok(Shape::SizeofType(type_name.copy(alloc)?)),
        Shape::SizeofExpr(a) => Ok(Shape::SizeofExpr(copy_boxed(alloc, a)?)),
        Shape::Binary {
            operator,
            left,
            right,
        } => Ok(Shape::Binary {
            operator: *operator,
            left: copy_boxed(alloc, left)?,
            right: copy_boxed(alloc, right)?,
        }),
        Shape::Assign {
            operator,
            left,
            right,
        } => Ok(Shape::Assign {
            operator: *operator,
            left: copy_boxed(alloc, left)?,
            right: copy_boxed(alloc, right)?,
        }),
        Shape::Conditional {
            condition,
            then,
            otherwise,
        } => Ok(Shape::Conditional {
            condition: copy_boxed(alloc, condition)?,
            then: copy_boxed(alloc, then)?,
            otherwise: copy_boxed(alloc, otherwise)?,
        }),
        Shape::Comma(a, b) => Ok(Shape::Comma(copy_boxed(alloc, a)?, copy_boxed(alloc, b)?)),
        Shape::Subscript(a, b) => Ok(Shape::Subscript(
            copy_boxed(alloc, a)?,
            copy_boxed(alloc, b)?,
        )),
        Shape::Member {
            access,
            object,
            name,
        } => Ok(Shape::Member {
            access: *access,
            object: copy_boxed(alloc, object)?,
            name: name.copy(alloc)?,
        }),
        Shape::Call(name, arguments) => {
            let arguments = copy_exprs(alloc, arguments)?;
            Ok(Shape::Call(name.copy(alloc)?, arguments))
        }
    }
}

/// Copies of expressions, in their order.
#[cycle(copy_expr)]
pub fn copy_exprs(alloc: Global, from: &[Expr]) -> Result<Vec<Expr>, NoMemory>
    ensures { IfOk result (λ to. map expr_tree to.items ≡ map expr_tree from.now) }
{
    let mut to = Vec::new(alloc);
    for e in from {
        to.push(copy_expr(alloc, e)?)?;
    }
    Ok(to)
}
