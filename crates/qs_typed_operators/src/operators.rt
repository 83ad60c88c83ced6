// Operators between two operands, unary operators, casts and sizes (C11 6.5.2.1, 6.5.3 to 6.5.15).
ghost use Rattle.std.specs.Prelude.{◌≡◌};
ghost use Rattle.qs_memory.specs.declared.operation.UnaryOperation.TheVariants.{Complement, Minus};
ghost use Rattle.qs_memory.specs.declared.operation.UnaryOperation.TheVariants.{Plus};
ghost use Rattle.qs_meaning.specs.Expressions.{address_form, arithmetic_form, beside_zero};
ghost use Rattle.qs_meaning.specs.Expressions.{binary_form, cast_form, comma_form, indirect_form};
ghost use Rattle.qs_meaning.specs.Expressions.{negation_form, object_at, operator_form};
ghost use Rattle.qs_meaning.specs.Expressions.{operator_value, size_form, subscript_form};
ghost use Rattle.qs_meaning.specs.Expressions.{unary_form};
ghost use Rattle.qs_types.specs.Conversions.{arithmetic};
ghost use Rattle.qs_types.specs.EnvOf.{env_tree};
ghost use Rattle.qs_types.specs.TypeOf.{type_tree};
ghost use Rattle.qs_types.specs.Types.{int};
ghost use Rattle.qs_typed_forms.specs.FormOf.{Chooses, Combines, Computes, IsForm, form_tree};
ghost use Rattle.qs_typed_operators.specs.Parts.{operation_tree};
ghost use Rattle.qs_typed_forms.specs.FormOf.{typed_tree};
ghost use Rattle.qs_typed_forms.specs.Results.{Equals, Makes};
ghost use Rattle.qs_typed_trees.specs.TreeOf.{expression_tree};

use crate::operations::{Operated, operation_of};
use qs_base::NoMemory;
use qs_memory::{Scalar, UnaryOperation};
use qs_syntax_vocabulary::{BinaryOperator, UnaryOperator};
use qs_typed_forms::{
    Form, Typed, common, conversion, effect_in_use, signedness, size_in, type_in_use, value_in_use,
};
use qs_typed_trees::{Expression, Lvalue, scalar_of};
use qs_types::{CType, Env, arithmetic, is_pointer, promoted};
use std::alloc::Global;

/// The object at this address. Want of memory is the other answer.
pub fn object_at(alloc: Global, address: Expression) -> Result<Form, NoMemory>
    ensures { Makes form_tree (object_at (expression_tree address)) result }
{
    Ok(Form::Lvalue(Lvalue::Object(Box::new(alloc, address)?)))
}

/// An operation on two values.
fn operated(alloc: Global, o: Operated, a: Typed<'_>, b: Typed<'_>) -> Result<Expression, NoMemory>
    ensures { Equals expression_tree (operation_tree o a.entry b.entry) result }
{
    let left = value_in_use(alloc, a)?;
    let right = value_in_use(alloc, b)?;
    Ok(Expression::Binary {
        operation: o.operation,
        order: o.order,
        before_left: o.left,
        before_right: o.right,
        left: Box::new(alloc, left)?,
        right: Box::new(alloc, right)?,
    })
}

/// What an operator gives that is an operation.
#[tactic(auto, using(crate::proofs::OperationTypes::operator_is))]
pub fn operator_value(
    alloc: Global,
    env: &Env,
    operator: BinaryOperator,
    a: Typed<'_>,
    b: Typed<'_>,
) -> Result<Expression, NoMemory>
    ensures { Computes (operator_value (env_tree env.now) operator) a.entry b.entry result }
{
    let t = type_in_use(alloc, &a)?;
    let u = type_in_use(alloc, &b)?;
    let o = operation_of(env, operator, &t, &u)?;
    operated(alloc, o, a, b)
}

fn operator_form(
    alloc: Global,
    env: &Env,
    operator: BinaryOperator,
    a: Typed<'_>,
    b: Typed<'_>,
) -> Result<Form, NoMemory>
    ensures { Combines (operator_form (env_tree env.now) operator) a.entry b.entry result }
{
    let e = operator_value(alloc, env, operator, a, b)?;
    Ok(Form::Value(e))
}

/// `a[b]` is `*(a + b)` (C11 6.5.2.1p2). Want of memory is the other answer.
pub fn subscript_form(
    alloc: Global,
    env: &Env,
    a: Typed<'_>,
    b: Typed<'_>,
) -> Result<Form, NoMemory>
    ensures { Combines (subscript_form (env_tree env.now)) a.entry b.entry result }
{
    let sum = operator_value(alloc, env, BinaryOperator::Add, a, b)?;
    object_at(alloc, sum)
}

fn and_form(alloc: Global, env: &Env, a: Typed<'_>, b: Typed<'_>) -> Result<Form, NoMemory>
    ensures { Combines (binary_form (env_tree env.now) BinaryOperator.And) a.entry b.entry result }
{
    let left = value_in_use(alloc, a)?;
    let right = value_in_use(alloc, b)?;
    Ok(Form::Value(Expression::LogicalAnd(Box::new(alloc, left)?, Box::new(alloc, right)?)))
}

fn or_form(alloc: Global, env: &Env, a: Typed<'_>, b: Typed<'_>) -> Result<Form, NoMemory>
    ensures { Combines (binary_form (env_tree env.now) BinaryOperator.Or) a.entry b.entry result }
{
    let left = value_in_use(alloc, a)?;
    let right = value_in_use(alloc, b)?;
    Ok(Form::Value(Expression::LogicalOr(Box::new(alloc, left)?, Box::new(alloc, right)?)))
}

/// An operator between two operands (C11 6.5.5 to 6.5.14). Want of memory is the other answer.
pub fn binary_form(
    alloc: Global,
    env: &Env,
    operator: BinaryOperator,
    a: Typed<'_>,
    b: Typed<'_>,
) -> Result<Form, NoMemory>
    ensures { Combines (binary_form (env_tree env.now) operator) a.entry b.entry result }
{
    match operator {
        BinaryOperator::And => and_form(alloc, env, a, b),
        BinaryOperator::Or => or_form(alloc, env, a, b),
        BinaryOperator::Multiply => operator_form(alloc, env, BinaryOperator::Multiply, a, b),
        BinaryOperator::Divide => operator_form(alloc, env, BinaryOperator::Divide, a, b),
        BinaryOperator::Remainder => operator_form(alloc, env, BinaryOperator::Remainder, a, b),
        BinaryOperator::Add => operator_form(alloc, env, BinaryOperator::Add, a, b),
        BinaryOperator::Subtract => operator_form(alloc, env, BinaryOperator::Subtract, a, b),
        BinaryOperator::ShiftLeft => operator_form(alloc, env, BinaryOperator::ShiftLeft, a, b),
        BinaryOperator::ShiftRight => operator_form(alloc, env, BinaryOperator::ShiftRight, a, b),
        BinaryOperator::Less => operator_form(alloc, env, BinaryOperator::Less, a, b),
        BinaryOperator::Greater => operator_form(alloc, env, BinaryOperator::Greater, a, b),
        BinaryOperator::LessEqual => operator_form(alloc, env, BinaryOperator::LessEqual, a, b),
        BinaryOperator::GreaterEqual => {
            operator_form(alloc, env, BinaryOperator::GreaterEqual, a, b)
        }
        BinaryOperator::Equal => operator_form(alloc, env, BinaryOperator::Equal, a, b),
        BinaryOperator::NotEqual => operator_form(alloc, env, BinaryOperator::NotEqual, a, b),
        BinaryOperator::BitAnd => operator_form(alloc, env, BinaryOperator::BitAnd, a, b),
        BinaryOperator::BitXor => operator_form(alloc, env, BinaryOperator::BitXor, a, b),
        BinaryOperator::BitOr => operator_form(alloc, env, BinaryOperator::BitOr, a, b),
    }
}

// ---- unary operators (C11 6.5.3)

/// `&` (C11 6.5.3.2p3).
fn address_form(a: Typed<'_>) -> Result<Form, NoMemory>
    ensures { IsForm (address_form (typed_tree a.entry)) result }
{
    let address = a.form.into_address()?;
    Ok(Form::Value(address))
}

/// `*` (C11 6.5.3.2p4).
fn indirect_form(alloc: Global, a: Typed<'_>) -> Result<Form, NoMemory>
    ensures { Makes form_tree (indirect_form (typed_tree a.entry)) result }
{
    let address = value_in_use(alloc, a)?;
    object_at(alloc, address)
}

fn plus_form(alloc: Global, a: Typed<'_>) -> Result<Form, NoMemory>
    ensures { Makes form_tree (arithmetic_form Plus (typed_tree a.entry)) result }
{
    let t = type_in_use(alloc, &a)?;
    let to = promoted(&t);
    let value = value_in_use(alloc, a)?;
    Ok(Form::Value(Expression::Unary(
        UnaryOperation::Plus(signedness(&to)),
        conversion(&t, &to),
        Box::new(alloc, value)?,
    )))
}

fn minus_form(alloc: Global, a: Typed<'_>) -> Result<Form, NoMemory>
    ensures { Makes form_tree (arithmetic_form Minus (typed_tree a.entry)) result }
{
    let t = type_in_use(alloc, &a)?;
    let to = promoted(&t);
    let value = value_in_use(alloc, a)?;
    Ok(Form::Value(Expression::Unary(
        UnaryOperation::Minus(signedness(&to)),
        conversion(&t, &to),
        Box::new(alloc, value)?,
    )))
}

fn complement_form(alloc: Global, a: Typed<'_>) -> Result<Form, NoMemory>
    ensures { Makes form_tree (arithmetic_form Complement (typed_tree a.entry)) result }
{
    let t = type_in_use(alloc, &a)?;
    let to = promoted(&t);
    let value = value_in_use(alloc, a)?;
    Ok(Form::Value(Expression::Unary(
        UnaryOperation::Complement(signedness(&to)),
        conversion(&t, &to),
        Box::new(alloc, value)?,
    )))
}

/// The type to which a value beside 0 is converted; `both` is that of two integers.
fn beside_zero<'a>(t: &'a CType, both: &'a CType) -> &'a CType
    requires { type_tree both.now ≡ arithmetic int (type_tree t.now) }
    ensures { type_tree result.now ≡ beside_zero (type_tree t.now) }
{
    if is_pointer(t) { t } else { both }
}

/// `!` (C11 6.5.3.3p5).
fn negation_form(alloc: Global, a: Typed<'_>) -> Result<Form, NoMemory>
    ensures { Makes form_tree (negation_form (typed_tree a.entry)) result }
{
    let t = type_in_use(alloc, &a)?;
    let both = arithmetic(&CType::Int, &t);
    let to = beside_zero(&t, &both);
    let before = conversion(&t, to);
    let value = value_in_use(alloc, a)?;
    Ok(Form::Value(Expression::Unary(UnaryOperation::Not, before, Box::new(alloc, value)?)))
}

/// A unary operator (C11 6.5.3.2, 6.5.3.3). Want of memory is the other answer.
pub fn unary_form(alloc: Global, operator: UnaryOperator, a: Typed<'_>) -> Result<Form, NoMemory>
    ensures { IsForm (unary_form operator (typed_tree a.entry)) result }
{
    match operator {
        UnaryOperator::Address => address_form(a),
        UnaryOperator::Indirect => indirect_form(alloc, a),
        UnaryOperator::Plus => plus_form(alloc, a),
        UnaryOperator::Minus => minus_form(alloc, a),
        UnaryOperator::Complement => complement_form(alloc, a),
        UnaryOperator::Not => negation_form(alloc, a),
    }
}

/// `sizeof`: the operand isn't evaluated, and the size has type `unsigned` (C11 6.5.3.4p2, p5).
/// Want of memory is the other answer.
pub fn size_form(env: &Env, t: &CType) -> Result<Form, NoMemory>
    ensures { IsForm (size_form (env_tree env.now) (type_tree t.now)) result }
{
    let size = size_in(env, t)?;
    Ok(Form::Value(Expression::Constant(Scalar::Unsigned, size)))
}

/// A cast (C11 6.5.4p5). Want of memory is the other answer.
pub fn cast_form(alloc: Global, t: &CType, a: Typed<'_>) -> Result<Form, NoMemory>
    ensures { Makes form_tree (cast_form (type_tree t.now) (typed_tree a.entry)) result }
{
    let from = type_in_use(alloc, &a)?;
    let value = value_in_use(alloc, a)?;
    Ok(Form::Value(Expression::Cast(conversion(&from, t), Box::new(alloc, value)?)))
}

/// `?:`: both branches are converted to one type (C11 6.5.15p5, p6). Want of memory is the other
/// answer.
pub fn conditional_form(
    alloc: Global,
    c: Typed<'_>,
    a: Typed<'_>,
    b: Typed<'_>,
) -> Result<Form, NoMemory>
    ensures { Chooses c.entry a.entry b.entry result }
{
    let t = type_in_use(alloc, &a)?;
    let u = type_in_use(alloc, &b)?;
    let both = arithmetic(&t, &u);
    let to = common(&t, &u, &both);
    let scalar = scalar_of(to);
    let before_then = conversion(&t, to);
    let before_otherwise = conversion(&u, to);
    let condition = value_in_use(alloc, c)?;
    let then = value_in_use(alloc, a)?;
    let otherwise = value_in_use(alloc, b)?;
    Ok(Form::Value(Expression::Conditional {
        scalar,
        condition: Box::new(alloc, condition)?,
        before_then,
        before_otherwise,
        then: Box::new(alloc, then)?,
        otherwise: Box::new(alloc, otherwise)?,
    }))
}

/// `,`: the left operand is used for its effect (C11 6.5.17p2). Want of memory is the other answer.
pub fn comma_form(alloc: Global, a: Typed<'_>, b: Typed<'_>) -> Result<Form, NoMemory>
    ensures { Makes form_tree (comma_form (typed_tree a.entry) (typed_tree b.entry)) result }
{
    let before = effect_in_use(alloc, a)?;
    let of = b.of.copy(alloc)?;
    Ok(Form::Comma {
        effect: Box::new(alloc, before)?,
        of,
        form: Box::new(alloc, b.form)?,
    })
}
