// What an expression is before it is known how it is used, and its uses (C11 6.3.2.1, 6.5.17,
// 6.8.3).
ghost use Rattle.std.specs.Prelude.{◌≡◌};
ghost use Rattle.qs_meaning.specs.Forms.{address_of, effect_in_use, effect_of, lvalue_of};
ghost use Rattle.qs_meaning.specs.Forms.{type_in_use, value_in_use, value_of};
ghost use Rattle.qs_types.specs.TypeOf.{type_tree};
ghost use Rattle.qs_typed_forms.specs.FormOf.{form_tree, step_tree, typed_tree, value_before, written};
ghost use Rattle.qs_typed_forms.specs.Results.{Equals, Gives, Makes};
ghost use Rattle.qs_typed_trees.specs.TreeOf.{assignment_tree, effect_tree, expression_tree, lvalue_tree};

use crate::types::decayed;
use qs_base::NoMemory;
use qs_calls::Callee;
use qs_memory::{BinaryOperation, Scalar};
use qs_typed_trees::{Argument, Assignment, Conversion, Effect, Expression, Lvalue, scalar_of};
use qs_types::CType;
use std::alloc::Global;

/// What an expression is.
#[cycle(form)]
pub enum Form {
    /// an lvalue (C11 6.3.2.1p1)
    Lvalue(Lvalue),
    /// a value that is no lvalue
    Value(Expression),
    /// a call (C11 6.5.2.2)
    Call(Callee, Vec<Argument>),
    /// an assignment of a scalar, `++a` and `--a` among them (C11 6.5.16, 6.5.3.1)
    Assignment(Box<Assignment>),
    /// `a++` and `a--` write, and have the value before (C11 6.5.2.4)
    Step(Box<Step>),
    /// an assignment of a struct (C11 6.5.16.1p2)
    StructAssignment {
        /// how many bytes
        size: u32,
        /// how they are aligned
        alignment: u32,
        /// the address to which
        to: Box<Expression>,
        /// the address from which
        from: Box<Expression>,
    },
    /// a comma: the left operand for its effect, then the right one (C11 6.5.17)
    Comma {
        /// the effect of the left operand
        effect: Box<Effect>,
        /// the type of the right operand
        of: CType,
        /// what the right operand is
        form: Box<Form>,
    },
}

/// A step behind its operand.
#[derive(Drop)]
pub struct Step {
    /// the lvalue's type
    pub scalar: Scalar,
    /// what is stepped
    pub lvalue: Lvalue,
    /// the operation that takes its value and 1
    pub operation: BinaryOperation,
    /// what happens to its value before
    pub before_left: Conversion,
    /// what happens to the 1 before
    pub before_right: Conversion,
    /// what happens to the operation's value before it is written
    pub back: Conversion,
}

/// An expression that has a type.
#[derive(Drop)]
pub struct Typed<'a> {
    /// its type
    pub of: &'a CType,
    /// what it is
    pub form: Form,
}

// ---- steps

/// The value before the step.
fn value_before(step: Step) -> Expression
    ensures { value_before (step_tree step) ≡ expression_tree result }
{
    Expression::SteppedAfter {
        scalar: step.scalar,
        lvalue: step.lvalue,
        operation: step.operation,
        operand: step.before_left,
        back: step.back,
    }
}

/// What a step writes.
fn written(step: Step) -> Assignment
    ensures { written (step_tree step) ≡ assignment_tree result }
{
    Assignment::Update {
        scalar: step.scalar,
        lvalue: step.lvalue,
        operation: step.operation,
        before_left: step.before_left,
        before_right: step.before_right,
        back: step.back,
        value: Expression::Constant(Scalar::Int, 1),
    }
}

// ---- forms

impl Form {
    /// The lvalue that it is.
    pub fn into_lvalue(self) -> Result<Lvalue, NoMemory>
        ensures { Gives lvalue_tree (lvalue_of (form_tree self)) result }
    {
        match self {
            Form::Lvalue(l) => Ok(l),
            Form::Value(_) => Err(NoMemory),
            Form::Call(_, _) => Err(NoMemory),
            Form::Assignment(_) => Err(NoMemory),
            Form::Step(_) => Err(NoMemory),
            Form::StructAssignment {
                size: _,
                alignment: _,
                to: _,
                from: _,
            } => Err(NoMemory),
            Form::Comma {
                effect: _,
                of: _,
                form: _,
            } => Err(NoMemory),
        }
    }

    /// The address of the object that it is.
    pub fn into_address(self) -> Result<Expression, NoMemory>
        ensures { Gives expression_tree (address_of (form_tree self)) result }
    {
        let l = self.into_lvalue()?;
        l.into_address()
    }

    /// Its value. An assignment of a struct, whose value no typed unit uses, is answered as want of
    /// memory.
    pub fn into_value(self, alloc: Global, t: &CType) -> Result<Expression, NoMemory>
        ensures { Equals expression_tree (value_of (type_tree t.now) (form_tree self)) result }
    {
        match self {
            Form::Lvalue(l) => Ok(l.into_value(t)),
            Form::Value(e) => Ok(e),
            Form::Call(f, given) => Ok(Expression::Called(scalar_of(t), f, given)),
            Form::Assignment(a) => Ok(Expression::Assigned(a)),
            Form::Step(step) => Ok(value_before(Box::into_inner(step))),
            Form::StructAssignment {
                size: _,
                alignment: _,
                to: _,
                from: _,
            } => Err(NoMemory),
            Form::Comma { effect, of, form } => {
                let value = Box::into_inner(form).into_value(alloc, &of)?;
                Ok(Expression::Sequence(effect, Box::new(alloc, value)?))
            }
        }
    }

    /// Its effect: the value is discarded, so a call needs none, and `a++` is `++a` (C11 6.8.3p2,
    /// 6.5.17p2).
    pub fn into_effect(self, alloc: Global, t: &CType) -> Result<Effect, NoMemory>
        ensures { Equals effect_tree (effect_of (type_tree t.now) (form_tree self)) result }
    {
        match self {
            Form::Lvalue(l) => Ok(Effect::Discard(l.into_value(t))),
            Form::Value(e) => Ok(Effect::Discard(e)),
            Form::Call(f, given) => Ok(Effect::Perform(f, given)),
            Form::Assignment(a) => Ok(Effect::Assign(Box::into_inner(a))),
            Form::Step(step) => Ok(Effect::Assign(written(Box::into_inner(step)))),
            Form::StructAssignment {
                size,
                alignment,
                to,
                from,
            } => Ok(Effect::Copy {
                size,
                alignment,
                to: Box::into_inner(to),
                from: Box::into_inner(from),
            }),
            Form::Comma { effect, of, form } => {
                let then = Box::into_inner(form).into_effect(alloc, &of)?;
                Ok(Effect::InOrder(effect, Box::new(alloc, then)?))
            }
        }
    }
}

// By hand, as for expressions.
impl Drop for Form {
    #[cycle(drop_form)]
    fn drop(self) {
        match self {
            Form::Lvalue(_) => {}
            Form::Value(_) => {}
            Form::Call(_, _) => {}
            Form::Assignment(_) => {}
            Form::Step(_) => {}
            Form::StructAssignment {
                size: _,
                alignment: _,
                to: _,
                from: _,
            } => {}
            Form::Comma {
                effect: _,
                of: _,
                form: _,
            } => {}
        }
    }
}

// ---- expressions with their types

/// The type of its value (C11 6.3.2.1p3). Want of memory is the other answer.
pub fn type_in_use(alloc: Global, a: &Typed<'_>) -> Result<CType, NoMemory>
    ensures { Makes type_tree (type_in_use (typed_tree a.now)) result }
{
    decayed(alloc, a.of)
}

/// Its value. Want of memory is the other answer.
pub fn value_in_use(alloc: Global, a: Typed<'_>) -> Result<Expression, NoMemory>
    ensures { Equals expression_tree (value_in_use (typed_tree a.entry)) result }
{
    a.form.into_value(alloc, a.of)
}

/// Its effect. Want of memory is the other answer.
pub fn effect_in_use(alloc: Global, a: Typed<'_>) -> Result<Effect, NoMemory>
    ensures { Equals effect_tree (effect_in_use (typed_tree a.entry)) result }
{
    a.form.into_effect(alloc, a.of)
}
