// Expressions of core again.
ghost use Rattle.std.specs.Prelude.{◌≡◌, IfOk};
ghost use Rattle.qs_core.specs.TreeOf.{core_expr, core_operands};
ghost use Rattle.qs_elaborate_bodies.specs.Results.{Gives};

use qs_base::NoMemory;
use qs_core::{CoreExpr, Operands};
use std::alloc::Global;

/// The same expression again.
#[cycle(copy_expr)]
pub fn copy_expr(a: &CoreExpr, alloc: Global) -> Result<CoreExpr, NoMemory>
    ensures { Gives (core_expr a.now) result }
{
    match a {
        CoreExpr::Literal(s, n) => Ok(CoreExpr::Literal(*s, *n)),
        CoreExpr::Null => Ok(CoreExpr::Null),
        CoreExpr::Variable(s, x) => Ok(CoreExpr::Variable(*s, *x)),
        CoreExpr::Temporary(s, k) => Ok(CoreExpr::Temporary(*s, *k)),
        CoreExpr::Address(b) => Ok(CoreExpr::Address(*b)),
        CoreExpr::Load(s, a) => Ok(CoreExpr::Load(*s, Box::new(alloc, copy_expr(a, alloc)?)?)),
        CoreExpr::Member(offset, a) => Ok(CoreExpr::Member(
            *offset,
            Box::new(alloc, copy_expr(a, alloc)?)?,
        )),
        CoreExpr::Unary(operation, a) => Ok(CoreExpr::Unary(
            *operation,
            Box::new(alloc, copy_expr(a, alloc)?)?,
        )),
        CoreExpr::Binary(operation, p) => Ok(CoreExpr::Binary(
            *operation,
            Box::new(alloc, copy_operands(p, alloc)?)?,
        )),
        CoreExpr::Convert(s, a) => Ok(CoreExpr::Convert(
            *s,
            Box::new(alloc, copy_expr(a, alloc)?)?,
        )),
        CoreExpr::And(p) => Ok(CoreExpr::And(Box::new(alloc, copy_operands(p, alloc)?)?)),
        CoreExpr::Or(p) => Ok(CoreExpr::Or(Box::new(alloc, copy_operands(p, alloc)?)?)),
        CoreExpr::Conditional(c, a, b) => Ok(CoreExpr::Conditional(
            Box::new(alloc, copy_expr(c, alloc)?)?,
            Box::new(alloc, copy_expr(a, alloc)?)?,
            Box::new(alloc, copy_expr(b, alloc)?)?,
        )),
    }
}

#[cycle(copy_expr)]
fn copy_operands(p: &Operands, alloc: Global) -> Result<Operands, NoMemory>
    ensures { IfOk result (λ q. core_operands q ≡ core_operands p.now) }
{
    Ok(Operands {
        left: copy_expr(&p.left, alloc)?,
        right: copy_expr(&p.right, alloc)?,
    })
}
