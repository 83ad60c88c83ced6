// Assignments and steps (C11 6.5.16, 6.5.2.4, 6.5.3.1).
ghost use Rattle.qs_meaning.specs.Expressions.{assign_form, compound_form, one, plain_form};
ghost use Rattle.qs_meaning.specs.Expressions.{set_form, step_after_form, step_form, struct_form};
ghost use Rattle.qs_types.specs.EnvOf.{env_tree};
ghost use Rattle.qs_typed_forms.specs.FormOf.{Combines, IsForm, typed_tree};
ghost use Rattle.qs_typed_operators.specs.Parts.{Steps, Updates};

use crate::operations::{Operated, operation_of};
use qs_base::NoMemory;
use qs_memory::Scalar;
use qs_syntax_vocabulary::{AssignmentOperator, BinaryOperator, StepOperator};
use qs_typed_forms::{
    Form, Step, Typed, between, conversion, extent_in, type_in_use, value_in_use,
};
use qs_typed_trees::{Assignment, Expression, Lvalue, scalar_of};
use qs_types::{CType, Env, is_struct};
use std::alloc::Global;

/// The value is converted to the type of the lvalue (C11 6.5.16.1p2).
fn set_form(alloc: Global, a: Typed<'_>, b: Typed<'_>) -> Result<Form, NoMemory>
    ensures { Combines set_form a.entry b.entry result }
{
    let lvalue = a.form.into_lvalue()?;
    let from = type_in_use(alloc, &b)?;
    let conversion = conversion(&from, a.of);
    let value = value_in_use(alloc, b)?;
    Ok(Form::Assignment(Box::new(
        alloc,
        Assignment::Set {
            scalar: scalar_of(a.of),
            lvalue,
            conversion,
            value,
        },
    )?))
}

/// A struct (C11 6.5.16.1p2).
fn struct_form(alloc: Global, env: &Env, a: Typed<'_>, b: Typed<'_>) -> Result<Form, NoMemory>
    ensures { Combines (struct_form (env_tree env.now)) a.entry b.entry result }
{
    let extent = extent_in(env, a.of)?;
    let to = a.form.into_address()?;
    let from = b.form.into_address()?;
    Ok(Form::StructAssignment {
        size: extent.size,
        alignment: extent.alignment,
        to: Box::new(alloc, to)?,
        from: Box::new(alloc, from)?,
    })
}

/// `=` (C11 6.5.16.1). Want of memory is the other answer.
pub fn plain_form(alloc: Global, env: &Env, a: Typed<'_>, b: Typed<'_>) -> Result<Form, NoMemory>
    ensures { Combines (plain_form (env_tree env.now)) a.entry b.entry result }
{
    if is_struct(a.of) {
        struct_form(alloc, env, a, b)
    } else {
        set_form(alloc, a, b)
    }
}

/// `a op= b` is `a = a op b`, but `a` is evaluated once (C11 6.5.16.2p3).
fn updated(
    alloc: Global,
    t: &CType,
    lvalue: Lvalue,
    o: Operated,
    value: Expression,
) -> Result<Form, NoMemory>
    ensures { Updates t.now lvalue o value result }
{
    let scalar = scalar_of(t);
    Ok(Form::Assignment(Box::new(
        alloc,
        Assignment::Update {
            scalar,
            lvalue,
            operation: o.operation,
            before_left: o.left,
            before_right: o.right,
            back: between(o.scalar, scalar),
            value,
        },
    )?))
}

/// A compound assignment with this operator.
#[tactic(auto, using(crate::proofs::OperationTypes::compound_is))]
fn compound_form(
    alloc: Global,
    env: &Env,
    operator: BinaryOperator,
    a: Typed<'_>,
    b: Typed<'_>,
) -> Result<Form, NoMemory>
    ensures { Combines (compound_form (env_tree env.now) operator) a.entry b.entry result }
{
    let lvalue = a.form.into_lvalue()?;
    let u = type_in_use(alloc, &b)?;
    let o = operation_of(env, operator, a.of, &u)?;
    let value = value_in_use(alloc, b)?;
    updated(alloc, a.of, lvalue, o, value)
}

/// An assignment (C11 6.5.16). Want of memory is the other answer.
pub fn assign_form(
    alloc: Global,
    env: &Env,
    operator: AssignmentOperator,
    a: Typed<'_>,
    b: Typed<'_>,
) -> Result<Form, NoMemory>
    ensures { Combines (assign_form (env_tree env.now) operator) a.entry b.entry result }
{
    match operator {
        AssignmentOperator::Plain => plain_form(alloc, env, a, b),
        AssignmentOperator::Multiply => compound_form(alloc, env, BinaryOperator::Multiply, a, b),
        AssignmentOperator::Divide => compound_form(alloc, env, BinaryOperator::Divide, a, b),
        AssignmentOperator::Remainder => compound_form(alloc, env, BinaryOperator::Remainder, a, b),
        AssignmentOperator::Add => compound_form(alloc, env, BinaryOperator::Add, a, b),
        AssignmentOperator::Subtract => compound_form(alloc, env, BinaryOperator::Subtract, a, b),
        AssignmentOperator::ShiftLeft => compound_form(alloc, env, BinaryOperator::ShiftLeft, a, b),
        AssignmentOperator::ShiftRight => {
            compound_form(alloc, env, BinaryOperator::ShiftRight, a, b)
        }
        AssignmentOperator::BitAnd => compound_form(alloc, env, BinaryOperator::BitAnd, a, b),
        AssignmentOperator::BitXor => compound_form(alloc, env, BinaryOperator::BitXor, a, b),
        AssignmentOperator::BitOr => compound_form(alloc, env, BinaryOperator::BitOr, a, b),
    }
}

// ---- steps

/// `++a` is `a += 1` (C11 6.5.3.1p2).
#[tactic(auto, using(crate::proofs::OperationTypes::compound_is))]
fn step_before_form(
    alloc: Global,
    env: &Env,
    operator: BinaryOperator,
    a: Typed<'_>,
) -> Result<Form, NoMemory>
    ensures { IsForm (compound_form (env_tree env.now) operator (typed_tree a.entry) one) result }
{
    let lvalue = a.form.into_lvalue()?;
    let o = operation_of(env, operator, a.of, &CType::Int)?;
    updated(alloc, a.of, lvalue, o, Expression::Constant(Scalar::Int, 1))
}

/// What `a++` writes, and the value before, by the operation.
fn stepped(alloc: Global, t: &CType, lvalue: Lvalue, o: Operated) -> Result<Form, NoMemory>
    ensures { Steps t.now lvalue o result }
{
    let scalar = scalar_of(t);
    Ok(Form::Step(Box::new(
        alloc,
        Step {
            scalar,
            lvalue,
            operation: o.operation,
            before_left: o.left,
            before_right: o.right,
            back: between(o.scalar, scalar),
        },
    )?))
}

/// What `a++` writes, and the value before (C11 6.5.2.4p2).
#[tactic(auto, using(crate::proofs::OperationTypes::step_after_is))]
fn step_after_form(
    alloc: Global,
    env: &Env,
    operator: BinaryOperator,
    a: Typed<'_>,
) -> Result<Form, NoMemory>
    ensures { IsForm (step_after_form (env_tree env.now) operator (typed_tree a.entry)) result }
{
    let lvalue = a.form.into_lvalue()?;
    let o = operation_of(env, operator, a.of, &CType::Int)?;
    stepped(alloc, a.of, lvalue, o)
}

/// A step by one. Want of memory is the other answer.
pub fn step_form(
    alloc: Global,
    env: &Env,
    operator: StepOperator,
    a: Typed<'_>,
) -> Result<Form, NoMemory>
    ensures { IsForm (step_form (env_tree env.now) operator (typed_tree a.entry)) result }
{
    match operator {
        StepOperator::IncrementBefore => step_before_form(alloc, env, BinaryOperator::Add, a),
        StepOperator::DecrementBefore => step_before_form(alloc, env, BinaryOperator::Subtract, a),
        StepOperator::IncrementAfter => step_after_form(alloc, env, BinaryOperator::Add, a),
        StepOperator::DecrementAfter => step_after_form(alloc, env, BinaryOperator::Subtract, a),
    }
}
