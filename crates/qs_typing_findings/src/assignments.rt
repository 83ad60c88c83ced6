// Assignments (C11 6.5.16).
ghost use Rattle.std.specs.Prelude.{◌≡◌, IfOk};
ghost use Rattle.qs_syntax.specs.TreeOf.{expr_tree};
ghost use Rattle.qs_types.specs.Expressions.{may_combine, compound_judged};
ghost use Rattle.qs_types.specs.TypeOf.{type_tree};
ghost use Rattle.qs_typing_findings.specs.JudgedOf.{judged_tree};
ghost use Rattle.qs_typing_findings.specs.Judging.{IsAssign, IsCombined, IsMoved, JudgesAssign, MayAssign};
ghost use Rattle.qs_typing_findings.specs.Judging.{may_move};

use crate::judged::{Judged, keeps, with_tests};
use crate::operands::{is_assignable, is_lvalue};
use crate::types::{both_integers, decayed, is_object_pointer};
use qs_base::NoMemory;
use qs_syntax::Expr;
use qs_syntax_vocabulary::AssignmentOperator;
use qs_types::{CType, Env, Rule, is_array, is_integer, is_struct};
use std::alloc::Global;

/// Whether `b` may be assigned to `a` (C11 6.5.16.1p1).
fn may_assign(alloc: Global, a: &Expr, t: &CType, b: &Expr, u: &CType) -> Result<bool, NoMemory>
    ensures { IfOk result (MayAssign a.now t.now b.now u.now) }
{
    let v = decayed(u.copy(alloc)?);
    Ok(
        is_lvalue(a)
            && !is_array(t)
            && (is_assignable(t, b, &v) || is_struct(t) && t.same(u) && is_lvalue(b)),
    )
}

fn may_combine(a: &Expr, t: &CType, v: &CType) -> bool
    ensures { result ≡ may_combine (expr_tree a.now) (type_tree t.now) (type_tree v.now) }
{
    is_lvalue(a) && both_integers(t, v)
}

fn may_move(types: &Env, a: &Expr, t: &CType, v: &CType) -> bool
    ensures { result ≡ may_move types.now a.now t.now v.now }
{
    is_lvalue(a) && (is_integer(t) || is_object_pointer(types, t)) && is_integer(v)
}

fn compound_judged(alloc: Global, may: bool, t: CType) -> Result<Judged, NoMemory>
    ensures { IfOk result (λ j. judged_tree j ≡ compound_judged may (type_tree t)) }
{
    with_tests(alloc, &[keeps(Rule::CompoundOperands, may)], t)
}

/// With an operator whose operands are integers.
fn combined_judged(alloc: Global, a: &Expr, t: CType, u: CType) -> Result<Judged, NoMemory>
    ensures { IfOk result (IsCombined a.now t u) }
{
    let may = may_combine(a, &t, &decayed(u));
    compound_judged(alloc, may, t)
}

/// With `+` or `-`.
fn moved_judged(
    alloc: Global,
    types: &Env,
    a: &Expr,
    t: CType,
    u: CType,
) -> Result<Judged, NoMemory>
    ensures { IfOk result (IsMoved types.now a.now t u) }
{
    let may = may_move(types, a, &t, &decayed(u));
    compound_judged(alloc, may, t)
}

fn assign_judged(
    alloc: Global,
    types: &Env,
    operator: AssignmentOperator,
    a: &Expr,
    t: CType,
    b: &Expr,
    u: CType,
) -> Result<Judged, NoMemory>
    ensures { IfOk result (IsAssign types.now operator a.now t b.now u) }
{
    match operator {
        AssignmentOperator::Plain => {
            let may = may_assign(alloc, a, &t, b, &u)?;
            with_tests(alloc, &[keeps(Rule::AssignedType, may)], t)
        }
        AssignmentOperator::Multiply => combined_judged(alloc, a, t, u),
        AssignmentOperator::Divide => combined_judged(alloc, a, t, u),
        AssignmentOperator::Remainder => combined_judged(alloc, a, t, u),
        AssignmentOperator::Add => moved_judged(alloc, types, a, t, u),
        AssignmentOperator::Subtract => moved_judged(alloc, types, a, t, u),
        AssignmentOperator::ShiftLeft => combined_judged(alloc, a, t, u),
        AssignmentOperator::ShiftRight => combined_judged(alloc, a, t, u),
        AssignmentOperator::BitAnd => combined_judged(alloc, a, t, u),
        AssignmentOperator::BitXor => combined_judged(alloc, a, t, u),
        AssignmentOperator::BitOr => combined_judged(alloc, a, t, u),
    }
}

/// An assignment.
pub fn judge_assign(
    alloc: Global,
    types: &Env,
    operator: AssignmentOperator,
    a: &Expr,
    t: Option<CType>,
    b: &Expr,
    u: Option<CType>,
) -> Result<Option<Judged>, NoMemory>
    ensures { IfOk result (JudgesAssign types.now operator a.now t b.now u) }
{
    match t {
        None => Ok(None),
        Some(t) => match u {
            None => Ok(None),
            Some(u) => Ok(Some(assign_judged(alloc, types, operator, a, t, b, u)?)),
        },
    }
}
