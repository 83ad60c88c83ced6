// How many temporaries the code of a plan takes besides those of the function.
ghost use Rattle.std.specs.Prelude.{◌≡◌, IfOk};
ghost use Rattle.qs_lower_expressions.specs.Expressions as spec;
ghost use Rattle.qs_lower_expressions.specs.Plans.{expr_code, element_used, started_code, tests_used};

use crate::plans::{ExprPlan, PlanPair};
use qs_base::{NoMemory, sum};
use qs_memory::{BinaryOperation, UnaryOperation};

// ---- those that an operand and the parts of an address keep

/// How many temporaries an operand keeps: one, unless it is an operand as it stands.
pub fn own(e: &ExprPlan) -> u32
    ensures { result ≡ spec.own (expr_code e.now) }
{
    match e.simple() {
        None => 1,
        Some(_) => 0,
    }
}

/// How many temporaries the parts of an address keep. A count that fits no `u32` is `NoMemory`.
#[cycle(base_own)]
pub fn base_own(e: &ExprPlan) -> Result<u32, NoMemory>
    ensures { IfOk result (λ n. n ≡ (expr_code e.now).base_own) }
{
    match e {
        ExprPlan::Offset(is_computed, _, p) => started_own(p, *is_computed),
        ExprPlan::IndexOffset(_, p) => base_own(p),
        ExprPlan::Element(is_computed, _, _, p) => sum(
            started_own(&p.left, *is_computed)?,
            own(&p.right),
        ),
        ExprPlan::Simple(_) => Ok(own(e)),
        ExprPlan::Load(_, _) => Ok(own(e)),
        ExprPlan::Unary(_, _) => Ok(own(e)),
        ExprPlan::Convert(_, _) => Ok(own(e)),
        ExprPlan::Binary(_, _) => Ok(own(e)),
        ExprPlan::Both(_) => Ok(own(e)),
        ExprPlan::Either(_) => Ok(own(e)),
        ExprPlan::Choice(_) => Ok(own(e)),
    }
}

/// Those of the address where an element or a member begins.
#[cycle(base_own)]
pub fn started_own(p: &ExprPlan, is_computed: bool) -> Result<u32, NoMemory>
    ensures { IfOk result (λ n. n ≡ (started_code is_computed p.now).base_own) }
{
    if is_computed { Ok(own(p)) } else { base_own(p) }
}

// ---- those that the code uses

/// How many temporaries the code uses that puts the value into a further one. A count that fits no
/// `u32` is `NoMemory`.
#[cycle(used)]
pub fn used(e: &ExprPlan) -> Result<u32, NoMemory>
    ensures { IfOk result (λ n. n ≡ (expr_code e.now).used) }
{
    match e {
        ExprPlan::Simple(_) => Ok(0),
        ExprPlan::Load(_, p) => base_used(p),
        ExprPlan::Offset(is_computed, _, p) => started_used(p, *is_computed),
        ExprPlan::IndexOffset(_, p) => base_used(p),
        ExprPlan::Element(is_computed, _, _, p) => element_used(p, *is_computed),
        ExprPlan::Unary(_, a) => used_by(a),
        ExprPlan::Convert(_, a) => used_by(a),
        ExprPlan::Binary(_, p) => pair_used(p),
        ExprPlan::Both(p) => tests_used(p),
        ExprPlan::Either(p) => tests_used(p),
        ExprPlan::Choice(p) => {
            let values = used(&p.met)?.max(used(&p.unmet)?);
            Ok(test_used(&p.condition)?.max(values))
        }
    }
}

/// How many temporaries the code of an operand uses, its own among them. A count that fits no
/// `u32` is `NoMemory`.
#[cycle(used)]
pub fn used_by(e: &ExprPlan) -> Result<u32, NoMemory>
    ensures { IfOk result (λ n. n ≡ spec.used_by (expr_code e.now)) }
{
    match e.simple() {
        None => Ok(used(e)?.max(1)),
        Some(_) => Ok(0),
    }
}

/// How many temporaries the code of the parts of an address uses. A count that fits no `u32` is
/// `NoMemory`.
#[cycle(used)]
pub fn base_used(e: &ExprPlan) -> Result<u32, NoMemory>
    ensures { IfOk result (λ n. n ≡ (expr_code e.now).base_used) }
{
    match e {
        ExprPlan::Offset(is_computed, _, p) => started_used(p, *is_computed),
        ExprPlan::IndexOffset(_, p) => base_used(p),
        ExprPlan::Element(is_computed, _, _, p) => element_used(p, *is_computed),
        ExprPlan::Simple(_) => used_by(e),
        ExprPlan::Load(_, _) => used_by(e),
        ExprPlan::Unary(_, _) => used_by(e),
        ExprPlan::Convert(_, _) => used_by(e),
        ExprPlan::Binary(_, _) => used_by(e),
        ExprPlan::Both(_) => used_by(e),
        ExprPlan::Either(_) => used_by(e),
        ExprPlan::Choice(_) => used_by(e),
    }
}

#[cycle(used)]
fn started_used(p: &ExprPlan, is_computed: bool) -> Result<u32, NoMemory>
    ensures { IfOk result (λ n. n ≡ (started_code is_computed p.now).base_used) }
{
    if is_computed {
        used_by(p)
    } else {
        base_used(p)
    }
}

#[cycle(used)]
fn element_used(p: &PlanPair, is_computed: bool) -> Result<u32, NoMemory>
    ensures { IfOk result (λ n. n ≡ element_used is_computed p.now) }
{
    let first = started_used(&p.left, is_computed)?;
    let second = sum(started_own(&p.left, is_computed)?, used_by(&p.right)?)?;
    Ok(first.max(second))
}

#[cycle(used)]
fn pair_used(p: &PlanPair) -> Result<u32, NoMemory>
    ensures { IfOk result (λ n. n ≡ spec.pair_used (expr_code p.now.left) (expr_code p.now.right)) }
{
    let first = used_by(&p.left)?;
    let second = sum(own(&p.left), used_by(&p.right)?)?;
    Ok(first.max(second))
}

#[cycle(used)]
fn tests_used(p: &PlanPair) -> Result<u32, NoMemory>
    ensures { IfOk result (λ n. n ≡ tests_used p.now) }
{
    Ok(test_used(&p.left)?.max(test_used(&p.right)?))
}

/// How many temporaries the test of a condition uses. A count that fits no `u32` is `NoMemory`.
#[cycle(used)]
pub fn test_used(e: &ExprPlan) -> Result<u32, NoMemory>
    ensures { IfOk result (λ n. n ≡ (expr_code e.now).test_used) }
{
    match e {
        ExprPlan::Unary(UnaryOperation::Not, a) => test_used(a),
        ExprPlan::Unary(UnaryOperation::Truth, a) => test_used(a),
        ExprPlan::Unary(UnaryOperation::Plus(_), _) => used_by(e),
        ExprPlan::Unary(UnaryOperation::Minus(_), _) => used_by(e),
        ExprPlan::Unary(UnaryOperation::Complement(_), _) => used_by(e),
        ExprPlan::Binary(BinaryOperation::Compare(_, _), p) => pair_used(p),
        ExprPlan::Binary(BinaryOperation::ComparePointers(_), p) => pair_used(p),
        ExprPlan::Binary(BinaryOperation::Arithmetic(_, _), _) => used_by(e),
        ExprPlan::Binary(BinaryOperation::Move(_, _, _), _) => used_by(e),
        ExprPlan::Binary(BinaryOperation::Difference(_), _) => used_by(e),
        ExprPlan::Both(p) => tests_used(p),
        ExprPlan::Either(p) => tests_used(p),
        ExprPlan::Simple(_) => used_by(e),
        ExprPlan::Load(_, _) => used_by(e),
        ExprPlan::Offset(_, _, _) => used_by(e),
        ExprPlan::IndexOffset(_, _) => used_by(e),
        ExprPlan::Element(_, _, _, _) => used_by(e),
        ExprPlan::Convert(_, _) => used_by(e),
        ExprPlan::Choice(_) => used_by(e),
    }
}
