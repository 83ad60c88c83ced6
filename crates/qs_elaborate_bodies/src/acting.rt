// Which expressions act: those that have statements in core.
ghost use Rattle.std.specs.Prelude.{◌≡◌};
ghost use Rattle.qs_typed_trees.specs.TreeOf.{expression_tree, lvalue_tree, arguments_tree, effect_tree};
ghost use Rattle.qs_typed_trees.specs.TreeOf.{effects_tree};
ghost use Rattle.qs_elaborate_bodies.specs.LiteralOf.{option_value};
ghost use Rattle.qs_elaborate_bodies.specs.Acting as spec;

use crate::literals::{Literal, converted_value};
use qs_typed_trees::{Argument, Effect, Expression, Lvalue};

fn constant_value(e: &Expression) -> Option<Literal>
    ensures { option_value result ≡ spec.constant_value (expression_tree e.now) }
{
    match e {
        Expression::Constant(_, n) => Some(Literal::Integer(*n)),
        Expression::Value(_, _) => None,
        Expression::PointerTo(_) => None,
        Expression::Member(_, _) => None,
        Expression::Called(_, _, _) => None,
        Expression::SteppedAfter { .. } => None,
        Expression::Unary(_, _, _) => None,
        Expression::Cast(c, a) => converted_value(*c, constant_value(a)),
        Expression::Binary { .. } => None,
        Expression::LogicalAnd(_, _) => None,
        Expression::LogicalOr(_, _) => None,
        Expression::Conditional { .. } => None,
        Expression::Assigned(_) => None,
        Expression::Sequence(_, b) => constant_value(b),
    }
}

fn is_constant(e: &Expression) -> bool
    ensures { result ≡ spec.is_constant (expression_tree e.now) }
{
    constant_value(e).is_some()
}

/// Whether an expression has statements in core.
#[cycle(acts)]
pub fn acts(e: &Expression) -> bool
    ensures { result ≡ spec.acts (expression_tree e.now) }
{
    match e {
        Expression::Constant(_, _) => false,
        Expression::Value(_, l) => lvalue_acts(l),
        Expression::PointerTo(_) => false,
        Expression::Member(_, a) => acts(a),
        Expression::Called(_, _, _) => true,
        Expression::SteppedAfter { .. } => true,
        Expression::Unary(_, _, a) => acts(a),
        Expression::Cast(_, a) => acts(a),
        Expression::Binary { left, right, .. } => acts(left) || acts(right),
        Expression::LogicalAnd(a, b) => acts(a) || acts(b),
        Expression::LogicalOr(a, b) => acts(a) || acts(b),
        Expression::Conditional {
            condition,
            then,
            otherwise,
            ..
        } => acts(condition) || (acts(then) || acts(otherwise)),
        Expression::Assigned(_) => true,
        Expression::Sequence(a, b) => effect_acts(a) || acts(b),
    }
}

#[cycle(acts)]
fn lvalue_acts(l: &Lvalue) -> bool
    ensures { result ≡ spec.lvalue_acts (lvalue_tree l.now) }
{
    match l {
        Lvalue::Variable(_) => false,
        Lvalue::Object(a) => acts(a),
    }
}

#[cycle(acts)]
fn effect_acts(a: &Effect) -> bool
    ensures { result ≡ spec.effect_acts (effect_tree a.now) }
{
    match a {
        Effect::Nothing => false,
        Effect::Discard(e) => acts(e) || !is_constant(e),
        Effect::Assign(_) => true,
        Effect::Perform(_, _) => true,
        Effect::Copy { .. } => true,
        Effect::Fill(_, _) => true,
        Effect::InOrder(a, b) => effect_acts(a) || effect_acts(b),
        Effect::Each(all) => any_acts(all),
    }
}

#[cycle(acts)]
fn any_acts(all: &[Effect]) -> bool
    ensures { result ≡ spec.effect_acts (effects_tree all.now) }
{
    for a in all {
        if effect_acts(a) {
            return true;
        }
    }
    false
}

/// Whether one of these arguments has statements in core.
pub fn arguments_act(given: &[Argument]) -> bool
    ensures { result ≡ spec.arguments_act (arguments_tree given.now) }
{
    for a in given {
        if acts(&a.value) {
            return true;
        }
    }
    false
}
