// Planning the code of expressions: each form of core becomes what the definition of its code says.
ghost use Rattle.std.specs.Prelude.{◌≡◌, IfOk, Some, None};
ghost use Rattle.qs_core.specs.TreeOf.{core_expr};
ghost use Rattle.qs_lower_expressions.specs.Expressions as spec;
ghost use Rattle.qs_lower_expressions.specs.Plans.{expr_code, index_offset, of_plain_operation, word_of};
ghost use Rattle.qs_lower_expressions.specs.Plans.{IsPlanIn, IsPlanOf, and_of, binary_of, conditional_code};
ghost use Rattle.qs_lower_expressions.specs.Plans.{or_of};

use crate::operands::{
    block_operand, constant_step, converted_option, folded, truth_operand, unary_of_option,
};
use crate::plans::{ExprPlan, PlanChoice, PlanPair};
use crate::values::{gives_integer, gives_truth, is_idle};
use qs_base::{NoMemory, sum};
use qs_core::{CoreExpr, Operands};
use qs_memory::{BinaryOperation, Direction, Scalar, Signedness, UnaryOperation};
use qs_tac::Operand;
use std::alloc::Global;

fn pair_of(alloc: Global, left: ExprPlan, right: ExprPlan) -> Result<Box<PlanPair>, NoMemory>
    ensures left { IfOk result (λ r. expr_code r.value.left ≡ expr_code left) }
    ensures right { IfOk result (λ r. expr_code r.value.right ≡ expr_code right) }
{
    Ok(Box::new(alloc, PlanPair { left, right })?)
}

// ---- loads and addresses

fn of_load(alloc: Global, s: Scalar, p: ExprPlan) -> Result<ExprPlan, NoMemory>
    ensures { IfOk result (IsPlanOf (spec.of_load s (expr_code p))) }
{
    Ok(ExprPlan::Load(s, Box::new(alloc, p)?))
}

// The offset that many bytes further, where it is a number of 32 bits.
fn further(offset: Option<u32>, bytes: u32) -> Option<u32>
    ensures { result ≡ word_of offset bytes }
{
    match offset {
        None => Some(bytes),
        Some(n) => n.checked_add(bytes),
    }
}

#[tactic(auto, using(crate::proofs::PlanLaws::offset_near, crate::proofs::PlanLaws::offset_far))]
fn behind_pointer(alloc: Global, bytes: u32, a: ExprPlan) -> Result<ExprPlan, NoMemory>
    requires { index_offset (expr_code a) ≡ None }
    ensures { IfOk result (IsPlanOf (spec.of_member bytes (expr_code a))) }
{
    match further(a.offset(), bytes) {
        None => Ok(ExprPlan::Offset(true, bytes, Box::new(alloc, a)?)),
        Some(n) => Ok(ExprPlan::Offset(false, n, Box::new(alloc, a)?)),
    }
}

#[tactic(auto, using(crate::proofs::PlanLaws::index_near, crate::proofs::PlanLaws::index_far))]
fn behind_element(
    alloc: Global,
    bytes: u32,
    offset: Option<u32>,
    a: ExprPlan,
) -> Result<ExprPlan, NoMemory>
    requires { index_offset (expr_code a) ≡ Some offset }
    ensures { IfOk result (IsPlanOf (spec.of_member bytes (expr_code a))) }
{
    match further(offset, bytes) {
        None => Ok(ExprPlan::Offset(true, bytes, Box::new(alloc, a)?)),
        Some(n) => Ok(ExprPlan::IndexOffset(n, Box::new(alloc, a)?)),
    }
}

fn of_member(alloc: Global, bytes: u32, a: ExprPlan) -> Result<ExprPlan, NoMemory>
    ensures { IfOk result (IsPlanOf (spec.of_member bytes (expr_code a))) }
{
    match a.index_offset() {
        None => behind_pointer(alloc, bytes, a),
        Some(offset) => behind_element(alloc, bytes, offset, a),
    }
}

#[tactic(auto, using(crate::proofs::PlanLaws::element_cases))]
fn of_element(
    alloc: Global,
    s: Signedness,
    element: u32,
    a: ExprPlan,
    b: ExprPlan,
) -> Result<ExprPlan, NoMemory>
    ensures { IfOk result (IsPlanOf (spec.of_element s element (expr_code a) (expr_code b))) }
{
    match a.index_offset() {
        None => Ok(ExprPlan::Element(false, s, element, pair_of(alloc, a, b)?)),
        Some(_) => Ok(ExprPlan::Element(true, s, element, pair_of(alloc, a, b)?)),
    }
}

// ---- operations on one value

fn of_truth(alloc: Global, gives_truth: bool, a: ExprPlan) -> Result<ExprPlan, NoMemory>
    ensures { IfOk result (IsPlanOf (spec.of_truth gives_truth (expr_code a))) }
{
    if gives_truth {
        Ok(a)
    } else {
        Ok(ExprPlan::Unary(UnaryOperation::Truth, Box::new(alloc, a)?))
    }
}

fn of_plus(
    alloc: Global,
    gives_integer: bool,
    s: Signedness,
    a: ExprPlan,
) -> Result<ExprPlan, NoMemory>
    ensures { IfOk result (IsPlanOf (spec.of_plus gives_integer s (expr_code a))) }
{
    if gives_integer {
        Ok(a)
    } else {
        Ok(ExprPlan::Unary(UnaryOperation::Plus(s), Box::new(alloc, a)?))
    }
}

fn of_compound(
    alloc: Global,
    op: UnaryOperation,
    gives_integer: bool,
    gives_truth: bool,
    a: ExprPlan,
) -> Result<ExprPlan, NoMemory>
    ensures { IfOk result (IsPlanOf (spec.of_compound op gives_integer gives_truth (expr_code a))) }
{
    match op {
        UnaryOperation::Plus(s) => of_plus(alloc, gives_integer, s, a),
        UnaryOperation::Minus(_) => Ok(ExprPlan::Unary(op, Box::new(alloc, a)?)),
        UnaryOperation::Complement(_) => Ok(ExprPlan::Unary(op, Box::new(alloc, a)?)),
        UnaryOperation::Not => Ok(ExprPlan::Unary(op, Box::new(alloc, a)?)),
        UnaryOperation::Truth => of_truth(alloc, gives_truth, a),
    }
}

fn of_unary(
    alloc: Global,
    op: UnaryOperation,
    gives_integer: bool,
    gives_truth: bool,
    a: ExprPlan,
) -> Result<ExprPlan, NoMemory>
    ensures { IfOk result (IsPlanOf (spec.of_unary op gives_integer gives_truth (expr_code a))) }
{
    match unary_of_option(op, a.simple()) {
        None => of_compound(alloc, op, gives_integer, gives_truth, a),
        Some(o) => Ok(ExprPlan::Simple(o)),
    }
}

fn of_conversion(alloc: Global, s: Scalar, is_idle: bool, a: ExprPlan) -> Result<ExprPlan, NoMemory>
    ensures { IfOk result (IsPlanOf (spec.of_conversion s is_idle (expr_code a))) }
{
    match converted_option(s, a.simple()) {
        None => {
            if is_idle {
                Ok(a)
            } else {
                Ok(ExprPlan::Convert(s, Box::new(alloc, a)?))
            }
        }
        Some(o) => Ok(ExprPlan::Simple(o)),
    }
}

// ---- operations on two values

fn plain_operation(
    alloc: Global,
    op: BinaryOperation,
    a: ExprPlan,
    b: ExprPlan,
) -> Result<ExprPlan, NoMemory>
    ensures { IfOk result (IsPlanOf (of_plain_operation op (expr_code a) (expr_code b))) }
{
    Ok(ExprPlan::Binary(op, pair_of(alloc, a, b)?))
}

fn of_operation(
    alloc: Global,
    op: BinaryOperation,
    a: ExprPlan,
    b: ExprPlan,
) -> Result<ExprPlan, NoMemory>
    ensures { IfOk result (IsPlanOf (spec.of_operation op (expr_code a) (expr_code b))) }
{
    match op {
        BinaryOperation::Arithmetic(_, _) => plain_operation(alloc, op, a, b),
        BinaryOperation::Compare(_, _) => plain_operation(alloc, op, a, b),
        BinaryOperation::Move(Direction::Up, s, element) => of_element(alloc, s, element, a, b),
        BinaryOperation::Move(Direction::Down, _, _) => plain_operation(alloc, op, a, b),
        BinaryOperation::Difference(_) => plain_operation(alloc, op, a, b),
        BinaryOperation::ComparePointers(_) => plain_operation(alloc, op, a, b),
    }
}

fn stepped_or(
    alloc: Global,
    op: BinaryOperation,
    a: ExprPlan,
    b: ExprPlan,
) -> Result<ExprPlan, NoMemory>
    ensures { IfOk result (IsPlanOf (spec.stepped_operation op (expr_code a) (expr_code b))) }
{
    match constant_step(op, b.simple()) {
        None => of_operation(alloc, op, a, b),
        Some(bytes) => of_member(alloc, bytes, a),
    }
}

fn of_binary(
    alloc: Global,
    op: BinaryOperation,
    a: ExprPlan,
    b: ExprPlan,
) -> Result<ExprPlan, NoMemory>
    ensures { IfOk result (IsPlanOf (spec.of_binary op (expr_code a) (expr_code b))) }
{
    match folded(op, a.simple(), b.simple()) {
        None => stepped_or(alloc, op, a, b),
        Some(o) => Ok(ExprPlan::Simple(o)),
    }
}

// ---- `&&`, `||`, `?:`

fn of_and(
    alloc: Global,
    known: Option<bool>,
    gives_truth: bool,
    a: ExprPlan,
    b: ExprPlan,
) -> Result<ExprPlan, NoMemory>
    ensures { IfOk result (IsPlanOf (spec.of_and known gives_truth (expr_code a) (expr_code b))) }
{
    match known {
        None => Ok(ExprPlan::Both(pair_of(alloc, a, b)?)),
        Some(true) => of_truth(alloc, gives_truth, b),
        Some(false) => Ok(ExprPlan::Simple(truth_operand(false))),
    }
}

fn of_or(
    alloc: Global,
    known: Option<bool>,
    gives_truth: bool,
    a: ExprPlan,
    b: ExprPlan,
) -> Result<ExprPlan, NoMemory>
    ensures { IfOk result (IsPlanOf (spec.of_or known gives_truth (expr_code a) (expr_code b))) }
{
    match known {
        None => Ok(ExprPlan::Either(pair_of(alloc, a, b)?)),
        Some(true) => Ok(ExprPlan::Simple(truth_operand(true))),
        Some(false) => of_truth(alloc, gives_truth, b),
    }
}

fn of_conditional(
    alloc: Global,
    known: Option<bool>,
    c: ExprPlan,
    a: ExprPlan,
    b: ExprPlan,
) -> Result<ExprPlan, NoMemory>
    ensures { IfOk result (IsPlanOf (conditional_code known c a b)) }
{
    match known {
        None => {
            let choice = PlanChoice {
                condition: c,
                met: a,
                unmet: b,
            };
            Ok(ExprPlan::Choice(Box::new(alloc, choice)?))
        }
        Some(true) => Ok(a),
        Some(false) => Ok(b),
    }
}

// ---- expressions

/// The plan of an expression in a function with so many variables, which are the first temporaries;
/// the function's temporaries follow. Like the expression it is as high as the source's.
#[cycle(lowered)]
pub fn lowered(alloc: Global, v: u32, e: &CoreExpr) -> Result<ExprPlan, NoMemory>
    ensures { IfOk result (IsPlanIn v (core_expr e.now)) }
{
    match e {
        CoreExpr::Literal(_, n) => Ok(ExprPlan::Simple(Operand::Constant(*n))),
        CoreExpr::Null => Ok(ExprPlan::Simple(Operand::Null)),
        CoreExpr::Variable(_, x) => Ok(ExprPlan::Simple(Operand::Temporary(*x))),
        CoreExpr::Temporary(_, k) => Ok(ExprPlan::Simple(Operand::Temporary(sum(v, *k)?))),
        CoreExpr::Address(b) => Ok(ExprPlan::Simple(block_operand(*b))),
        CoreExpr::Load(s, a) => {
            let a = lowered(alloc, v, a)?;
            of_load(alloc, *s, a)
        }
        CoreExpr::Member(offset, a) => {
            let a = lowered(alloc, v, a)?;
            of_member(alloc, *offset, a)
        }
        CoreExpr::Unary(op, a) => {
            let first = lowered(alloc, v, a)?;
            of_unary(alloc, *op, gives_integer(a), gives_truth(a), first)
        }
        CoreExpr::Binary(op, p) => lowered_binary(alloc, v, *op, p),
        CoreExpr::Convert(s, a) => {
            let first = lowered(alloc, v, a)?;
            of_conversion(alloc, *s, is_idle(*s, a), first)
        }
        CoreExpr::And(p) => lowered_and(alloc, v, p),
        CoreExpr::Or(p) => lowered_or(alloc, v, p),
        CoreExpr::Conditional(c, a, b) => {
            let c = lowered(alloc, v, c)?;
            let a = lowered(alloc, v, a)?;
            let b = lowered(alloc, v, b)?;
            of_conditional(alloc, c.known(), c, a, b)
        }
    }
}

#[cycle(lowered)]
fn lowered_binary(
    alloc: Global,
    v: u32,
    op: BinaryOperation,
    p: &Operands,
) -> Result<ExprPlan, NoMemory>
    ensures { IfOk result (IsPlanIn v (binary_of op p.now)) }
{
    let a = lowered(alloc, v, &p.left)?;
    let b = lowered(alloc, v, &p.right)?;
    of_binary(alloc, op, a, b)
}

#[cycle(lowered)]
fn lowered_and(alloc: Global, v: u32, p: &Operands) -> Result<ExprPlan, NoMemory>
    ensures { IfOk result (IsPlanIn v (and_of p.now)) }
{
    let a = lowered(alloc, v, &p.left)?;
    let b = lowered(alloc, v, &p.right)?;
    of_and(alloc, a.known(), gives_truth(&p.right), a, b)
}

#[cycle(lowered)]
fn lowered_or(alloc: Global, v: u32, p: &Operands) -> Result<ExprPlan, NoMemory>
    ensures { IfOk result (IsPlanIn v (or_of p.now)) }
{
    let a = lowered(alloc, v, &p.left)?;
    let b = lowered(alloc, v, &p.right)?;
    of_or(alloc, a.known(), gives_truth(&p.right), a, b)
}
