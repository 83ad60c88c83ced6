// The conditions of expressions.
ghost use Rattle.std.specs.Prelude.{◌≡◌};
ghost use Rattle.qs_core.specs.TreeOf.{core_expr};
ghost use Rattle.qs_core.specs.TermTreeOf.{GivesCondition, core_term, core_condition};
ghost use Rattle.qs_core.specs.TermTreeOf.{option_term, option_condition};
ghost use Rattle.qs_core.specs.TermTrees.{compared};
ghost use Rattle.qs_core.specs.Terms.{comparison_of};
ghost use Rattle.qs_core.specs.Terms as spec;

use crate::expressions::CoreExpr;
use crate::term::{ConditionPair, CoreCondition, CoreTerm, TermComparison, TermPair};
use crate::terms::term_of;
use qs_base::NoMemory;
use qs_memory::{BinaryOperation, Comparison, UnaryOperation};
use std::alloc::Global;

fn compared(op: TermComparison, left: CoreTerm, right: CoreTerm) -> CoreCondition
    ensures { core_condition result ≡ compared op (core_term left) (core_term right) }
{
    CoreCondition::Compared(op, TermPair { left, right })
}

// A number that isn't 0.
fn nonzero(whole: Option<CoreTerm>) -> Option<CoreCondition>
    ensures { option_condition result ≡ spec.nonzero (option_term whole) }
{
    Some(compared(TermComparison::NotEqual, whole?, CoreTerm::Number(0)))
}

fn comparison(op: Comparison, t: CoreTerm, u: CoreTerm) -> CoreCondition
    ensures { core_condition result ≡ spec.comparison op (core_term t) (core_term u) }
{
    match op {
        Comparison::Less => compared(TermComparison::Less, t, u),
        Comparison::LessOrEqual => compared(TermComparison::LessOrEqual, t, u),
        Comparison::Greater => compared(TermComparison::Less, u, t),
        Comparison::GreaterOrEqual => compared(TermComparison::LessOrEqual, u, t),
        Comparison::Equal => compared(TermComparison::Equal, t, u),
        Comparison::NotEqual => compared(TermComparison::NotEqual, t, u),
    }
}

fn comparison_of(
    op: Comparison,
    left: Option<CoreTerm>,
    right: Option<CoreTerm>,
) -> Option<CoreCondition>
    ensures { option_condition result ≡ comparison_of op (option_term left) (option_term right) }
{
    let Some(t) = left else {
        return None;
    };
    let Some(u) = right else {
        return None;
    };
    Some(comparison(op, t, u))
}

fn negation(
    alloc: Global,
    operand: Option<CoreCondition>,
) -> Result<Option<CoreCondition>, NoMemory>
    ensures { GivesCondition (spec.negation (option_condition operand)) result }
{
    let Some(c) = operand else {
        return Ok(None);
    };
    Ok(Some(CoreCondition::Not(Box::new(alloc, c)?)))
}

fn both(
    alloc: Global,
    left: Option<CoreCondition>,
    right: Option<CoreCondition>,
) -> Result<Option<CoreCondition>, NoMemory>
    ensures { GivesCondition (spec.both (option_condition left) (option_condition right)) result }
{
    let Some(left) = left else {
        return Ok(None);
    };
    let Some(right) = right else {
        return Ok(None);
    };
    let pair = Box::new(alloc, ConditionPair { left, right })?;
    Ok(Some(CoreCondition::And(pair)))
}

fn either(
    alloc: Global,
    left: Option<CoreCondition>,
    right: Option<CoreCondition>,
) -> Result<Option<CoreCondition>, NoMemory>
    ensures { GivesCondition (spec.either (option_condition left) (option_condition right)) result }
{
    let Some(left) = left else {
        return Ok(None);
    };
    let Some(right) = right else {
        return Ok(None);
    };
    let pair = Box::new(alloc, ConditionPair { left, right })?;
    Ok(Some(CoreCondition::Or(pair)))
}

// The condition that an expression which is no condition isn't 0.
fn test(alloc: Global, e: &CoreExpr) -> Result<Option<CoreCondition>, NoMemory>
    ensures { GivesCondition (spec.nonzero (spec.term_of (core_expr e.now))) result }
{
    Ok(nonzero(term_of(alloc, e)?))
}

/// The condition that an expression isn't 0, where there is one. It is as high as the expression.
pub fn condition_of(alloc: Global, e: &CoreExpr) -> Result<Option<CoreCondition>, NoMemory>
    ensures { GivesCondition (spec.condition_of (core_expr e.now)) result }
{
    match e {
        CoreExpr::Literal(_, _) => test(alloc, e),
        CoreExpr::Null => Ok(None),
        CoreExpr::Variable(_, _) => test(alloc, e),
        CoreExpr::Temporary(_, _) => test(alloc, e),
        CoreExpr::Address(_) => Ok(None),
        CoreExpr::Load(_, _) => Ok(None),
        CoreExpr::Member(_, _) => Ok(None),
        CoreExpr::Unary(UnaryOperation::Plus(_), _) => test(alloc, e),
        CoreExpr::Unary(UnaryOperation::Minus(_), _) => test(alloc, e),
        CoreExpr::Unary(UnaryOperation::Complement(_), _) => Ok(None),
        CoreExpr::Unary(UnaryOperation::Not, a) => negation(alloc, condition_of(alloc, a)?),
        CoreExpr::Unary(UnaryOperation::Truth, _) => Ok(None),
        CoreExpr::Binary(BinaryOperation::Arithmetic(_, _), _) => test(alloc, e),
        CoreExpr::Binary(BinaryOperation::Compare(op, _), p) => {
            let left = term_of(alloc, &p.left)?;
            let right = term_of(alloc, &p.right)?;
            Ok(comparison_of(*op, left, right))
        }
        CoreExpr::Binary(BinaryOperation::Move(_, _, _), _) => Ok(None),
        CoreExpr::Binary(BinaryOperation::Difference(_), _) => Ok(None),
        CoreExpr::Binary(BinaryOperation::ComparePointers(_), _) => Ok(None),
        CoreExpr::Convert(_, _) => test(alloc, e),
        CoreExpr::And(p) => {
            let left = condition_of(alloc, &p.left)?;
            let right = condition_of(alloc, &p.right)?;
            both(alloc, left, right)
        }
        CoreExpr::Or(p) => {
            let left = condition_of(alloc, &p.left)?;
            let right = condition_of(alloc, &p.right)?;
            either(alloc, left, right)
        }
        CoreExpr::Conditional(_, _, _) => Ok(None),
    }
}
