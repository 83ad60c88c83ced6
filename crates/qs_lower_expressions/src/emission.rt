// The code of plans.
ghost use Rattle.std.specs.Prelude.{◌≡◌, ◌+◌, true, false, OnOk};
ghost use Rattle.qs_tac.specs.TreeOf.{instruction_tree};
ghost use Rattle.qs_lower_expressions.specs.Expressions as spec;
ghost use Rattle.qs_lower_expressions.specs.Plans.{expr_code, number_code, Emits, EmitsAt, EmitsTest, Grows};
ghost use Rattle.qs_lower_expressions.specs.Plans.{GrowsByTest, GrowsByValue, TestsValue, binary_code};
ghost use Rattle.qs_lower_expressions.specs.Plans.{both_code, both_number, both_sizes, both_test_size};
ghost use Rattle.qs_lower_expressions.specs.Plans.{choice_code, either_code, either_number, either_sizes};
ghost use Rattle.qs_lower_expressions.specs.Plans.{either_test_size, element_parts, element_size};
ghost use Rattle.qs_lower_expressions.specs.Plans.{operands_code, operands_size, operation_code, start_parts};
ghost use Rattle.qs_lower_expressions.specs.Plans.{start_size, unary_code};

use crate::addresses::{address_at, operand_of};
use crate::exits::{Exit, emit_branch, emit_known, place, put};
use crate::operands::{converted, swaps, truth_of};
use crate::plans::{ExprPlan, PlanChoice, PlanPair};
use crate::scratch::{own, started_own};
use crate::sizes::{both_size, either_size, size, test_size};
use qs_base::{NoMemory, sum};
use qs_memory::{BinaryOperation, Scalar, UnaryOperation};
use qs_tac::{Condition, Instruction, Operand};

// The operation, with a constant on the right where the instruction lets its operands change
// places.
fn binary_instruction(op: BinaryOperation, x: u32, left: Operand, right: Operand) -> Instruction
    ensures { instruction_tree result ≡ spec.binary_instruction op x left right }
{
    if swaps(op, left) {
        Instruction::Binary(op, x, right, left)
    } else {
        Instruction::Binary(op, x, left, right)
    }
}

// The value of the type in x: where the operand can be read so, it is moved.
fn converting_instruction(s: Scalar, x: u32, o: Operand) -> Instruction
    ensures { instruction_tree result ≡ spec.converting_instruction s x o }
{
    match converted(s, o) {
        Some(p) => Instruction::Move(x, p),
        None => Instruction::Convert(s, x, o),
    }
}

// Behind a test that goes on here where it holds, and just before the last of these instructions
// where it doesn't: the number 1 or 0.
fn put_number(code: &mut Vec<Instruction>, x: u32, end: u32) -> Result<(), NoMemory>
    ensures code { OnOk result (Emits code.old code.new (number_code x end)) }
    ensures size { OnOk result (Grows code.old code.new 3) }
{
    put(code, Instruction::Move(x, Operand::Constant(1)))?;
    put(code, Instruction::Jump(end))?;
    put(code, Instruction::Move(x, Operand::Constant(0)))
}

/// Emits the value into a temporary; others from t on are free.
#[cycle(emission)]
pub fn emit_into(code: &mut Vec<Instruction>, e: &ExprPlan, x: u32, t: u32) -> Result<(), NoMemory>
    ensures code { OnOk result (EmitsAt code.old code.new ((expr_code e.now).into x t)) }
    ensures size { OnOk result (Grows code.old code.new (expr_code e.now).size) }
{
    match e {
        ExprPlan::Simple(o) => put(code, Instruction::Move(x, *o)),
        ExprPlan::Load(s, p) => {
            emit_base(code, p, t)?;
            put(code, Instruction::Load(*s, x, address_at(p, t)?))
        }
        ExprPlan::Offset(is_computed, _, p) => {
            emit_started(code, p, *is_computed, t)?;
            put(code, Instruction::AddressOf(x, address_at(e, t)?))
        }
        ExprPlan::IndexOffset(_, p) => {
            emit_base(code, p, t)?;
            put(code, Instruction::AddressOf(x, address_at(e, t)?))
        }
        ExprPlan::Element(is_computed, _, _, p) => {
            emit_element(code, p, *is_computed, t)?;
            put(code, Instruction::AddressOf(x, address_at(e, t)?))
        }
        ExprPlan::Unary(op, a) => emit_unary(code, *op, a, x, t),
        ExprPlan::Convert(s, a) => {
            emit_operand(code, a, t)?;
            put(code, converting_instruction(*s, x, operand_of(a, t)))
        }
        ExprPlan::Binary(op, p) => emit_binary(code, *op, p, x, t),
        ExprPlan::Both(p) => emit_both_number(code, p, x, t),
        ExprPlan::Either(p) => emit_either_number(code, p, x, t),
        ExprPlan::Choice(p) => emit_choice(code, p, x, t),
    }
}

#[cycle(emission)]
fn emit_unary(
    code: &mut Vec<Instruction>,
    op: UnaryOperation,
    a: &ExprPlan,
    x: u32,
    t: u32,
) -> Result<(), NoMemory>
    ensures code { OnOk result (EmitsAt code.old code.new ((unary_code op a.now).into x t)) }
    ensures size { OnOk result (Grows code.old code.new (unary_code op a.now).size) }
{
    emit_operand(code, a, t)?;
    put(code, Instruction::Unary(op, x, operand_of(a, t)))
}

#[cycle(emission)]
fn emit_binary(
    code: &mut Vec<Instruction>,
    op: BinaryOperation,
    p: &PlanPair,
    x: u32,
    t: u32,
) -> Result<(), NoMemory>
    ensures code { OnOk result (EmitsAt code.old code.new ((binary_code op p.now).into x t)) }
    ensures size { OnOk result (Grows code.old code.new (binary_code op p.now).size) }
{
    let next = sum(t, own(&p.left))?;
    emit_pair(code, p, t)?;
    put(
        code,
        binary_instruction(op, x, operand_of(&p.left, t), operand_of(&p.right, next)),
    )
}

/// Emits the value into the temporary t, where the expression isn't an operand as it stands.
#[cycle(emission)]
pub fn emit_operand(code: &mut Vec<Instruction>, e: &ExprPlan, t: u32) -> Result<(), NoMemory>
    ensures code { OnOk result (EmitsAt code.old code.new (spec.code_of (expr_code e.now) t)) }
    ensures size { OnOk result (Grows code.old code.new (spec.size_of (expr_code e.now))) }
{
    match e.simple() {
        None => emit_into(code, e, t, t),
        Some(_) => Ok(()),
    }
}

/// Emits the parts of the address.
#[cycle(emission)]
pub fn emit_base(code: &mut Vec<Instruction>, e: &ExprPlan, t: u32) -> Result<(), NoMemory>
    ensures code { OnOk result (EmitsAt code.old code.new ((expr_code e.now).base_code t)) }
    ensures size { OnOk result (Grows code.old code.new (expr_code e.now).base_size) }
{
    match e {
        ExprPlan::Offset(is_computed, _, p) => emit_started(code, p, *is_computed, t),
        ExprPlan::IndexOffset(_, p) => emit_base(code, p, t),
        ExprPlan::Element(is_computed, _, _, p) => emit_element(code, p, *is_computed, t),
        ExprPlan::Simple(_) => emit_operand(code, e, t),
        ExprPlan::Load(_, _) => emit_operand(code, e, t),
        ExprPlan::Unary(_, _) => emit_operand(code, e, t),
        ExprPlan::Convert(_, _) => emit_operand(code, e, t),
        ExprPlan::Binary(_, _) => emit_operand(code, e, t),
        ExprPlan::Both(_) => emit_operand(code, e, t),
        ExprPlan::Either(_) => emit_operand(code, e, t),
        ExprPlan::Choice(_) => emit_operand(code, e, t),
    }
}

#[cycle(emission)]
fn emit_started(
    code: &mut Vec<Instruction>,
    p: &ExprPlan,
    is_computed: bool,
    t: u32,
) -> Result<(), NoMemory>
    ensures code { OnOk result (EmitsAt code.old code.new (start_parts is_computed p.now t)) }
    ensures size { OnOk result (Grows code.old code.new (start_size is_computed p.now)) }
{
    if is_computed {
        emit_operand(code, p, t)
    } else {
        emit_base(code, p, t)
    }
}

#[cycle(emission)]
fn emit_element(
    code: &mut Vec<Instruction>,
    p: &PlanPair,
    is_computed: bool,
    t: u32,
) -> Result<(), NoMemory>
    ensures code { OnOk result (EmitsAt code.old code.new (element_parts is_computed p.now t)) }
    ensures size { OnOk result (Grows code.old code.new (element_size is_computed p.now)) }
{
    let next = sum(t, started_own(&p.left, is_computed)?)?;
    emit_started(code, &p.left, is_computed, t)?;
    emit_operand(code, &p.right, next)
}

#[cycle(emission)]
fn emit_pair(code: &mut Vec<Instruction>, p: &PlanPair, t: u32) -> Result<(), NoMemory>
    ensures code { OnOk result (EmitsAt code.old code.new (operands_code p.now t)) }
    ensures size { OnOk result (Grows code.old code.new (operands_size p.now)) }
{
    let next = sum(t, own(&p.left))?;
    emit_operand(code, &p.left, t)?;
    emit_operand(code, &p.right, next)
}

#[cycle(emission)]
#[tactic(auto, using(crate::proofs::EmissionLaws::number_emitted))]
fn emit_both_number(
    code: &mut Vec<Instruction>,
    p: &PlanPair,
    x: u32,
    t: u32,
) -> Result<(), NoMemory>
    ensures code { OnOk result (EmitsAt code.old code.new (both_number p.now x t)) }
    ensures size { OnOk result (Grows code.old code.new (both_sizes p.now true false + 3)) }
{
    let met = sum(place(code)?, both_size(p, true, false)?)?;
    let unmet = sum(met, 2)?;
    let end = sum(unmet, 1)?;
    emit_both(code, p, Exit::Falls(met), Exit::Goes(unmet), t)?;
    put_number(code, x, end)?;
    Ok(())
}

#[cycle(emission)]
#[tactic(auto, using(crate::proofs::EmissionLaws::number_emitted))]
fn emit_either_number(
    code: &mut Vec<Instruction>,
    p: &PlanPair,
    x: u32,
    t: u32,
) -> Result<(), NoMemory>
    ensures code { OnOk result (EmitsAt code.old code.new (either_number p.now x t)) }
    ensures size { OnOk result (Grows code.old code.new (either_sizes p.now true false + 3)) }
{
    let met = sum(place(code)?, either_size(p, true, false)?)?;
    let unmet = sum(met, 2)?;
    let end = sum(unmet, 1)?;
    emit_either(code, p, Exit::Falls(met), Exit::Goes(unmet), t)?;
    put_number(code, x, end)?;
    Ok(())
}

#[cycle(emission)]
fn emit_choice(code: &mut Vec<Instruction>, p: &PlanChoice, x: u32, t: u32) -> Result<(), NoMemory>
    ensures code { OnOk result (EmitsAt code.old code.new ((choice_code p.now).into x t)) }
    ensures size { OnOk result (Grows code.old code.new (choice_code p.now).size) }
{
    let first = sum(place(code)?, test_size(&p.condition, true, false)?)?;
    let second = sum(sum(first, size(&p.met)?)?, 1)?;
    let end = sum(second, size(&p.unmet)?)?;
    emit_test(
        code,
        &p.condition,
        Exit::Falls(first),
        Exit::Goes(second),
        t,
    )?;
    emit_into(code, &p.met, x, t)?;
    put(code, Instruction::Jump(end))?;
    emit_into(code, &p.unmet, x, t)
}

#[cycle(emission)]
fn emit_value_test(
    code: &mut Vec<Instruction>,
    e: &ExprPlan,
    met: Exit,
    unmet: Exit,
    t: u32,
) -> Result<(), NoMemory>
    ensures code { OnOk result (TestsValue code.old code.new (expr_code e.now) met unmet t) }
    ensures size { OnOk result (GrowsByValue code.old code.new (expr_code e.now) met unmet) }
{
    emit_into(code, e, t, t)?;
    emit_branch(code, Condition::NotZero(Operand::Temporary(t)), met, unmet)
}

#[cycle(emission)]
fn emit_unary_test(
    code: &mut Vec<Instruction>,
    op: UnaryOperation,
    a: &ExprPlan,
    met: Exit,
    unmet: Exit,
    t: u32,
) -> Result<(), NoMemory>
    ensures code { OnOk result (EmitsTest code.old code.new (unary_code op a.now) met unmet t) }
    ensures size { OnOk result (GrowsByTest code.old code.new (unary_code op a.now) met unmet) }
{
    match op {
        UnaryOperation::Not => emit_test(code, a, unmet, met, t),
        UnaryOperation::Truth => emit_test(code, a, met, unmet, t),
        UnaryOperation::Plus(_) => emit_unary_value_test(code, op, a, met, unmet, t),
        UnaryOperation::Minus(_) => emit_unary_value_test(code, op, a, met, unmet, t),
        UnaryOperation::Complement(_) => emit_unary_value_test(code, op, a, met, unmet, t),
    }
}

#[cycle(emission)]
fn emit_unary_value_test(
    code: &mut Vec<Instruction>,
    op: UnaryOperation,
    a: &ExprPlan,
    met: Exit,
    unmet: Exit,
    t: u32,
) -> Result<(), NoMemory>
    ensures code { OnOk result (TestsValue code.old code.new (unary_code op a.now) met unmet t) }
    ensures size { OnOk result (GrowsByValue code.old code.new (unary_code op a.now) met unmet) }
{
    emit_unary(code, op, a, t, t)?;
    emit_branch(code, Condition::NotZero(Operand::Temporary(t)), met, unmet)
}

#[cycle(emission)]
fn emit_binary_value_test(
    code: &mut Vec<Instruction>,
    op: BinaryOperation,
    p: &PlanPair,
    met: Exit,
    unmet: Exit,
    t: u32,
) -> Result<(), NoMemory>
    ensures code { OnOk result (TestsValue code.old code.new (binary_code op p.now) met unmet t) }
    ensures size { OnOk result (GrowsByValue code.old code.new (binary_code op p.now) met unmet) }
{
    emit_binary(code, op, p, t, t)?;
    emit_branch(code, Condition::NotZero(Operand::Temporary(t)), met, unmet)
}

// A comparison is a branch.
#[cycle(emission)]
fn emit_binary_test(
    code: &mut Vec<Instruction>,
    op: BinaryOperation,
    p: &PlanPair,
    met: Exit,
    unmet: Exit,
    t: u32,
) -> Result<(), NoMemory>
    ensures code { OnOk result (EmitsTest code.old code.new (operation_code op p.now) met unmet t) }
    ensures size { OnOk result (GrowsByTest code.old code.new (operation_code op p.now) met unmet) }
{
    let left = operand_of(&p.left, t);
    let right = operand_of(&p.right, sum(t, own(&p.left))?);
    match op {
        BinaryOperation::Compare(c, s) => {
            emit_pair(code, p, t)?;
            emit_branch(code, Condition::Compare(c, s, left, right), met, unmet)
        }
        BinaryOperation::ComparePointers(c) => {
            emit_pair(code, p, t)?;
            emit_branch(code, Condition::ComparePointers(c, left, right), met, unmet)
        }
        BinaryOperation::Arithmetic(_, _) => emit_binary_value_test(code, op, p, met, unmet, t),
        BinaryOperation::Move(_, _, _) => emit_binary_value_test(code, op, p, met, unmet, t),
        BinaryOperation::Difference(_) => emit_binary_value_test(code, op, p, met, unmet, t),
    }
}

/// Emits the test of the condition; temporaries from t on are free.
#[cycle(emission)]
pub fn emit_test(
    code: &mut Vec<Instruction>,
    e: &ExprPlan,
    met: Exit,
    unmet: Exit,
    t: u32,
) -> Result<(), NoMemory>
    ensures code { OnOk result (EmitsTest code.old code.new (expr_code e.now) met unmet t) }
    ensures size { OnOk result (GrowsByTest code.old code.new (expr_code e.now) met unmet) }
{
    match e {
        ExprPlan::Simple(o) => emit_known(code, truth_of(*o), *o, met, unmet),
        ExprPlan::Unary(op, a) => emit_unary_test(code, *op, a, met, unmet, t),
        ExprPlan::Binary(op, p) => emit_binary_test(code, *op, p, met, unmet, t),
        ExprPlan::Both(p) => emit_both(code, p, met, unmet, t),
        ExprPlan::Either(p) => emit_either(code, p, met, unmet, t),
        ExprPlan::Load(_, _) => emit_value_test(code, e, met, unmet, t),
        ExprPlan::Offset(_, _, _) => emit_value_test(code, e, met, unmet, t),
        ExprPlan::IndexOffset(_, _) => emit_value_test(code, e, met, unmet, t),
        ExprPlan::Element(_, _, _, _) => emit_value_test(code, e, met, unmet, t),
        ExprPlan::Convert(_, _) => emit_value_test(code, e, met, unmet, t),
        ExprPlan::Choice(_) => emit_value_test(code, e, met, unmet, t),
    }
}

/// Emits the test of `&&`.
#[cycle(emission)]
fn emit_both(
    code: &mut Vec<Instruction>,
    p: &PlanPair,
    met: Exit,
    unmet: Exit,
    t: u32,
) -> Result<(), NoMemory>
    ensures code { OnOk result (EmitsTest code.old code.new (both_code p.now) met unmet t) }
    ensures size { OnOk result (Grows code.old code.new (both_test_size p.now met unmet)) }
{
    let second = sum(place(code)?, test_size(&p.left, true, false)?)?;
    emit_test(code, &p.left, Exit::Falls(second), unmet.settled(), t)?;
    emit_test(code, &p.right, met, unmet, t)
}

/// Emits the test of `||`.
#[cycle(emission)]
fn emit_either(
    code: &mut Vec<Instruction>,
    p: &PlanPair,
    met: Exit,
    unmet: Exit,
    t: u32,
) -> Result<(), NoMemory>
    ensures code { OnOk result (EmitsTest code.old code.new (either_code p.now) met unmet t) }
    ensures size { OnOk result (Grows code.old code.new (either_test_size p.now met unmet)) }
{
    let second = sum(place(code)?, test_size(&p.left, false, true)?)?;
    emit_test(code, &p.left, met.settled(), Exit::Falls(second), t)?;
    emit_test(code, &p.right, met, unmet, t)
}
