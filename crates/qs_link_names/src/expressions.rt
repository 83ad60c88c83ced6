// Expressions with their names as the program calls them (C11 6.5).
ghost use Rattle.std.specs.Prelude.{◌≡◌, IfOk, map};
ghost use Rattle.qs_syntax.specs.TreeOf.{expr_tree, exprs_tree, option_tree, shape_tree};
ghost use Rattle.qs_link_names.specs.InternalOf.{internal_of};
ghost use Rattle.qs_link_names.specs.LinkedExpressions as spec;

use crate::linkage::Internal;
use qs_base::NoMemory;
use qs_syntax::{Expr, Shape};
use std::alloc::Global;

/// An expression with its names as the program calls them.
#[cycle(linked_expr)]
pub fn linked_expr(alloc: Global, own: &Internal<'_>, e: &Expr) -> Result<Expr, NoMemory>
    ensures { IfOk result (λ to. expr_tree to ≡ spec.linked_expr (internal_of own.now) (expr_tree e.now)) }
{
    let shape = linked_shape(alloc, own, &e.shape)?;
    Ok(Expr {
        node: e.node,
        shape,
    })
}

#[cycle(linked_expr)]
fn linked_boxed(alloc: Global, own: &Internal<'_>, e: &Expr) -> Result<Box<Expr>, NoMemory>
    ensures { IfOk result (λ to. expr_tree to.value ≡ spec.linked_expr (internal_of own.now) (expr_tree e.now)) }
{
    let to = linked_expr(alloc, own, e)?;
    Ok(Box::new(alloc, to)?)
}

#[cycle(linked_expr)]
fn linked_shape(alloc: Global, own: &Internal<'_>, shape: &Shape) -> Result<Shape, NoMemory>
    ensures { IfOk result (λ to. shape_tree to ≡ spec.linked_shape (internal_of own.now) (shape_tree shape.now)) }
{
    match shape {
        Shape::Constant(value, is_unsigned) => Ok(Shape::Constant(*value, *is_unsigned)),
        Shape::Text(text) => Ok(Shape::Text(text.copy(alloc)?)),
        Shape::Name(name) => Ok(Shape::Name(own.linked(alloc, name)?)),
        Shape::Unary(operator, a) => Ok(Shape::Unary(*operator, linked_boxed(alloc, own, a)?)),
        Shape::Step(operator, a) => Ok(Shape::Step(*operator, linked_boxed(alloc, own, a)?)),
        Shape::Cast(type_name, a) => Ok(Shape::Cast(
            type_name.copy(alloc)?,
            linked_boxed(alloc, own, a)?,
        )),
        Shape::SizeofType(type_name) => Ok(Shape::SizeofType(type_name.copy(alloc)?)),
        Shape::SizeofExpr(a) => Ok(Shape::SizeofExpr(linked_boxed(alloc, own, a)?)),
        Shape::Binary {
            operator,
            left,
            right,
        } => Ok(Shape::Binary {
            operator: *operator,
            left: linked_boxed(alloc, own, left)?,
            right: linked_boxed(alloc, own, right)?,
        }),
        Shape::Assign {
            operator,
            left,
            right,
        } => Ok(Shape::Assign {
            operator: *operator,
            left: linked_boxed(alloc, own, left)?,
            right: linked_boxed(alloc, own, right)?,
        }),
        Shape::Conditional {
            condition,
            then,
            otherwise,
        } => Ok(Shape::Conditional {
            condition: linked_boxed(alloc, own, condition)?,
            then: linked_boxed(alloc, own, then)?,
            otherwise: linked_boxed(alloc, own, otherwise)?,
        }),
        Shape::Comma(a, b) => Ok(Shape::Comma(
            linked_boxed(alloc, own, a)?,
            linked_boxed(alloc, own, b)?,
        )),
        Shape::Subscript(a, b) => Ok(Shape::Subscript(
            linked_boxed(alloc, own, a)?,
            linked_boxed(alloc, own, b)?,
        )),
        Shape::Member {
            access,
            object,
            name,
        } => Ok(Shape::Member {
            access: *access,
            object: linked_boxed(alloc, own, object)?,
            name: name.copy(alloc)?,
        }),
        Shape::Call(name, arguments) => {
            let arguments = linked_exprs(alloc, own, arguments)?;
            Ok(Shape::Call(own.linked(alloc, name)?, arguments))
        }
    }
}

/// The same of expressions, in their order.
#[cycle(linked_expr)]
pub fn linked_exprs(alloc: Global, own: &Internal<'_>, from: &[Expr]) -> Result<Vec<Expr>, NoMemory>
    ensures list { IfOk result (λ to. map expr_tree to.items ≡ spec.linked_list (internal_of own.now) (map expr_tree from.now)) }
    ensures tree { IfOk result (λ to. exprs_tree to.items ≡ spec.linked_exprs (internal_of own.now) (exprs_tree from.now)) }
{
    let mut to = Vec::new(alloc);
    for e in from {
        to.push(linked_expr(alloc, own, e)?)?;
    }
    Ok(to)
}

/// The same of an expression that may be absent.
pub fn linked_option(
    alloc: Global,
    own: &Internal<'_>,
    from: &Option<Expr>,
) -> Result<Option<Expr>, NoMemory>
    ensures { IfOk result (λ to. option_tree to ≡ spec.linked_option (internal_of own.now) (option_tree from.now)) }
{
    match from {
        None => Ok(None),
        Some(e) => Ok(Some(linked_expr(alloc, own, e)?)),
    }
}
