// How many instructions the code of a plan has.
ghost use Rattle.std.specs.Prelude.{◌≡◌, ◌+◌, IfOk};
ghost use Rattle.qs_lower_expressions.specs.Exits as exits;
ghost use Rattle.qs_lower_expressions.specs.Expressions as spec;
ghost use Rattle.qs_lower_expressions.specs.Plans.{expr_code, both_sizes, either_sizes, element_size};
ghost use Rattle.qs_lower_expressions.specs.Plans.{operands_size, started_code};

use crate::exits::{branch_size, known_size};
use crate::operands::truth_of;
use crate::plans::{ExprPlan, PlanPair};
use qs_base::{NoMemory, sum};
use qs_memory::{BinaryOperation, UnaryOperation};

/// How many instructions put the value into a temporary. A count that fits no `u32` is `NoMemory`.
#[cycle(sizes)]
pub fn size(e: &ExprPlan) -> Result<u32, NoMemory>
    ensures { IfOk result (λ n. n ≡ (expr_code e.now).size) }
{
    match e {
        ExprPlan::Simple(_) => Ok(1),
        ExprPlan::Load(_, p) => sum(base_size(p)?, 1),
        ExprPlan::Offset(is_computed, _, p) => sum(started_size(p, *is_computed)?, 1),
        ExprPlan::IndexOffset(_, p) => sum(base_size(p)?, 1),
        ExprPlan::Element(is_computed, _, _, p) => sum(element_size(p, *is_computed)?, 1),
        ExprPlan::Unary(_, a) => sum(size_of(a)?, 1),
        ExprPlan::Convert(_, a) => sum(size_of(a)?, 1),
        ExprPlan::Binary(_, p) => sum(pair_size(p)?, 1),
        ExprPlan::Both(p) => sum(both_size(p, true, false)?, 3),
        ExprPlan::Either(p) => sum(either_size(p, true, false)?, 3),
        ExprPlan::Choice(p) => {
            let first = sum(test_size(&p.condition, true, false)?, size(&p.met)?)?;
            sum(sum(first, 1)?, size(&p.unmet)?)
        }
    }
}

/// How many instructions an operand takes. A count that fits no `u32` is `NoMemory`.
#[cycle(sizes)]
pub fn size_of(e: &ExprPlan) -> Result<u32, NoMemory>
    ensures { IfOk result (λ n. n ≡ spec.size_of (expr_code e.now)) }
{
    match e.simple() {
        None => size(e),
        Some(_) => Ok(0),
    }
}

/// How many instructions the parts of an address take. A count that fits no `u32` is `NoMemory`.
#[cycle(sizes)]
pub fn base_size(e: &ExprPlan) -> Result<u32, NoMemory>
    ensures { IfOk result (λ n. n ≡ (expr_code e.now).base_size) }
{
    match e {
        ExprPlan::Offset(is_computed, _, p) => started_size(p, *is_computed),
        ExprPlan::IndexOffset(_, p) => base_size(p),
        ExprPlan::Element(is_computed, _, _, p) => element_size(p, *is_computed),
        ExprPlan::Simple(_) => size_of(e),
        ExprPlan::Load(_, _) => size_of(e),
        ExprPlan::Unary(_, _) => size_of(e),
        ExprPlan::Convert(_, _) => size_of(e),
        ExprPlan::Binary(_, _) => size_of(e),
        ExprPlan::Both(_) => size_of(e),
        ExprPlan::Either(_) => size_of(e),
        ExprPlan::Choice(_) => size_of(e),
    }
}

#[cycle(sizes)]
fn started_size(p: &ExprPlan, is_computed: bool) -> Result<u32, NoMemory>
    ensures { IfOk result (λ n. n ≡ (started_code is_computed p.now).base_size) }
{
    if is_computed {
        size_of(p)
    } else {
        base_size(p)
    }
}

#[cycle(sizes)]
fn element_size(p: &PlanPair, is_computed: bool) -> Result<u32, NoMemory>
    ensures { IfOk result (λ n. n ≡ element_size is_computed p.now) }
{
    sum(started_size(&p.left, is_computed)?, size_of(&p.right)?)
}

/// For two operands.
#[cycle(sizes)]
fn pair_size(p: &PlanPair) -> Result<u32, NoMemory>
    ensures { IfOk result (λ n. n ≡ operands_size p.now) }
{
    sum(size_of(&p.left)?, size_of(&p.right)?)
}

#[cycle(sizes)]
fn value_test_size(e: &ExprPlan, met: bool, unmet: bool) -> Result<u32, NoMemory>
    ensures { IfOk result (λ n. n ≡ (expr_code e.now).size + exits.branch_size met unmet) }
{
    sum(size(e)?, branch_size(met, unmet))
}

/// How many instructions the test of a condition takes, by whether its exits come next. A count
/// that fits no `u32` is `NoMemory`.
#[cycle(sizes)]
pub fn test_size(e: &ExprPlan, met: bool, unmet: bool) -> Result<u32, NoMemory>
    ensures { IfOk result (λ n. n ≡ (expr_code e.now).test_size met unmet) }
{
    match e {
        ExprPlan::Simple(o) => Ok(known_size(truth_of(*o), met, unmet)),
        ExprPlan::Unary(UnaryOperation::Not, a) => test_size(a, unmet, met),
        ExprPlan::Unary(UnaryOperation::Truth, a) => test_size(a, met, unmet),
        ExprPlan::Unary(UnaryOperation::Plus(_), _) => value_test_size(e, met, unmet),
        ExprPlan::Unary(UnaryOperation::Minus(_), _) => value_test_size(e, met, unmet),
        ExprPlan::Unary(UnaryOperation::Complement(_), _) => value_test_size(e, met, unmet),
        ExprPlan::Binary(BinaryOperation::Compare(_, _), p) => sum(
            pair_size(p)?,
            branch_size(met, unmet),
        ),
        ExprPlan::Binary(BinaryOperation::ComparePointers(_), p) => sum(
            pair_size(p)?,
            branch_size(met, unmet),
        ),
        ExprPlan::Binary(BinaryOperation::Arithmetic(_, _), _) => value_test_size(e, met, unmet),
        ExprPlan::Binary(BinaryOperation::Move(_, _, _), _) => value_test_size(e, met, unmet),
        ExprPlan::Binary(BinaryOperation::Difference(_), _) => value_test_size(e, met, unmet),
        ExprPlan::Both(p) => both_size(p, met, unmet),
        ExprPlan::Either(p) => either_size(p, met, unmet),
        ExprPlan::Load(_, _) => value_test_size(e, met, unmet),
        ExprPlan::Offset(_, _, _) => value_test_size(e, met, unmet),
        ExprPlan::IndexOffset(_, _) => value_test_size(e, met, unmet),
        ExprPlan::Element(_, _, _, _) => value_test_size(e, met, unmet),
        ExprPlan::Convert(_, _) => value_test_size(e, met, unmet),
        ExprPlan::Choice(_) => value_test_size(e, met, unmet),
    }
}

/// The test of `&&`.
#[cycle(sizes)]
pub fn both_size(p: &PlanPair, met: bool, unmet: bool) -> Result<u32, NoMemory>
    ensures { IfOk result (λ n. n ≡ both_sizes p.now met unmet) }
{
    sum(
        test_size(&p.left, true, false)?,
        test_size(&p.right, met, unmet)?,
    )
}

/// The test of `||`.
#[cycle(sizes)]
pub fn either_size(p: &PlanPair, met: bool, unmet: bool) -> Result<u32, NoMemory>
    ensures { IfOk result (λ n. n ≡ either_sizes p.now met unmet) }
{
    sum(
        test_size(&p.left, false, true)?,
        test_size(&p.right, met, unmet)?,
    )
}
