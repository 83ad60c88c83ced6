// Constant expressions (C11 6.6): how they are built, and their values.
ghost use Rattle.std.specs.Prelude.{◌≡◌};
ghost use Rattle.qs_syntax.specs.TreeOf.{expr_tree, shape_tree};
ghost use Rattle.qs_types.specs.Constants as constants;
ghost use Rattle.qs_types.specs.Constants.{shape_value, value_of};
ghost use Rattle.qs_types.specs.EnvOf.{env_tree};
ghost use Rattle.qs_types.specs.Expressions as expressions;
ghost use Rattle.qs_types.specs.KnownTypes.{base_size, converted_known, known_in};
ghost use Rattle.qs_types.specs.KnownTypes.{named_size};
ghost use Rattle.qs_types.specs.Layout.{size_within};
ghost use Rattle.qs_types.specs.TypeNamesOf.{names_tree};
ghost use Rattle.qs_types.specs.TypeOf.{type_tree};

use crate::env::Env;
use crate::kinds;
use crate::layout::extent_of;
use crate::type_names::TypeNames;
use crate::types::CType;
use qs_base::{add32, divs32, divu32, mul32, rems32, remu32, sll32, sra32, srl32, sub32};
use qs_syntax::{Base, Expr, Shape, TypeName};
use qs_syntax_vocabulary::{BinaryOperator, UnaryOperator};

// ---- names of integer types

#[tactic(auto, using(crate::proofs::NameLookups::no_struct_is))]
fn is_integer_base(names: &TypeNames, base: &Base) -> bool
    ensures { result ≡ constants.is_integer_base (names_tree names.now) base.now }
{
    match base {
        Base::Void => false,
        Base::Int => true,
        Base::Unsigned => true,
        Base::Char => true,
        Base::Struct(_) => false,
        Base::Named(x) => match names.type_of(x) {
            None => false,
            Some(t) => kinds::is_integer(t),
        },
    }
}

#[tactic(auto, using(crate::proofs::NameLookups::no_struct_is))]
fn is_unsigned_base(names: &TypeNames, base: &Base) -> bool
    ensures { result ≡ constants.is_unsigned_base (names_tree names.now) base.now }
{
    match base {
        Base::Void => false,
        Base::Int => false,
        Base::Unsigned => true,
        Base::Char => false,
        Base::Struct(_) => false,
        Base::Named(x) => match names.type_of(x) {
            None => false,
            Some(t) => kinds::is_unsigned(t),
        },
    }
}

fn is_integer_name(names: &TypeNames, name: &TypeName) -> bool
    ensures { result ≡ constants.is_integer_name (names_tree names.now) name.now }
{
    name.stars == 0 && is_integer_base(names, &name.base)
}

// ---- what they are built of

/// Whether it is built as a constant expression is.
#[cycle(is_built)]
pub fn is_built(names: &TypeNames, e: &Expr) -> bool
    ensures { result ≡ constants.is_built (names_tree names.now) (expr_tree e.now) }
{
    is_built_shape(names, &e.shape)
}

#[cycle(is_built)]
fn is_built_shape(names: &TypeNames, shape: &Shape) -> bool
    ensures { result ≡ constants.is_built_shape (names_tree names.now) (shape_tree shape.now) }
{
    match shape {
        Shape::Constant(_, _) => true,
        Shape::Text(_) => false,
        Shape::Name(_) => false,
        Shape::Unary(operator, a) => match operator {
            UnaryOperator::Address => false,
            UnaryOperator::Indirect => false,
            UnaryOperator::Plus => is_built(names, a),
            UnaryOperator::Minus => is_built(names, a),
            UnaryOperator::Complement => is_built(names, a),
            UnaryOperator::Not => is_built(names, a),
        },
        Shape::Step(_, _) => false,
        Shape::Cast(name, a) => is_integer_name(names, name) && is_built(names, a),
        Shape::SizeofType(_) => true,
        Shape::SizeofExpr(_) => false,
        Shape::Binary { left, right, .. } => is_built(names, left) && is_built(names, right),
        Shape::Assign { .. } => false,
        Shape::Conditional {
            condition,
            then,
            otherwise,
        } => is_built(names, condition) && is_built(names, then) && is_built(names, otherwise),
        Shape::Comma(_, _) => false,
        Shape::Subscript(_, _) => false,
        Shape::Member { .. } => false,
        Shape::Call(_, _) => false,
    }
}

/// Whether it is an integer literal of value 0 (C11 6.3.2.3p3).
pub fn is_null_constant(e: &Expr) -> bool
    ensures { result ≡ expressions.is_null_constant (expr_tree e.now) }
{
    match &e.shape {
        Shape::Constant(n, _) => *n == 0,
        Shape::Text(_) => false,
        Shape::Name(_) => false,
        Shape::Unary(_, _) => false,
        Shape::Step(_, _) => false,
        Shape::Cast(_, _) => false,
        Shape::SizeofType(_) => false,
        Shape::SizeofExpr(_) => false,
        Shape::Binary { .. } => false,
        Shape::Assign { .. } => false,
        Shape::Conditional { .. } => false,
        Shape::Comma(_, _) => false,
        Shape::Subscript(_, _) => false,
        Shape::Member { .. } => false,
        Shape::Call(_, _) => false,
    }
}

// ---- whether their type is unsigned

fn is_unsigned_by(operator: BinaryOperator, p: bool, q: bool) -> bool
    ensures { result ≡ constants.is_unsigned_by operator p q }
{
    match operator {
        BinaryOperator::Multiply => p || q,
        BinaryOperator::Divide => p || q,
        BinaryOperator::Remainder => p || q,
        BinaryOperator::Add => p || q,
        BinaryOperator::Subtract => p || q,
        BinaryOperator::ShiftLeft => p,
        BinaryOperator::ShiftRight => p,
        BinaryOperator::Less => false,
        BinaryOperator::LessEqual => false,
        BinaryOperator::Greater => false,
        BinaryOperator::GreaterEqual => false,
        BinaryOperator::Equal => false,
        BinaryOperator::NotEqual => false,
        BinaryOperator::BitAnd => p || q,
        BinaryOperator::BitXor => p || q,
        BinaryOperator::BitOr => p || q,
        BinaryOperator::And => false,
        BinaryOperator::Or => false,
    }
}

#[cycle(is_unsigned)]
fn is_unsigned(names: &TypeNames, e: &Expr) -> bool
    ensures { result ≡ constants.is_unsigned (names_tree names.now) (expr_tree e.now) }
{
    is_unsigned_shape(names, &e.shape)
}

#[cycle(is_unsigned)]
fn is_unsigned_shape(names: &TypeNames, shape: &Shape) -> bool
    ensures { result ≡ constants.is_unsigned_shape (names_tree names.now) (shape_tree shape.now) }
{
    match shape {
        Shape::Constant(_, is_unsigned) => *is_unsigned,
        Shape::Text(_) => false,
        Shape::Name(_) => false,
        Shape::Unary(operator, a) => match operator {
            UnaryOperator::Address => false,
            UnaryOperator::Indirect => false,
            UnaryOperator::Plus => is_unsigned(names, a),
            UnaryOperator::Minus => is_unsigned(names, a),
            UnaryOperator::Complement => is_unsigned(names, a),
            UnaryOperator::Not => false,
        },
        Shape::Step(_, _) => false,
        Shape::Cast(name, _) => is_unsigned_base(names, &name.base),
        Shape::SizeofType(_) => true,
        Shape::SizeofExpr(_) => true,
        Shape::Binary {
            operator,
            left,
            right,
        } => is_unsigned_by(
            *operator,
            is_unsigned(names, left),
            is_unsigned(names, right),
        ),
        Shape::Assign { .. } => false,
        Shape::Conditional {
            then,
            otherwise,
            ..
        } => is_unsigned(names, then) || is_unsigned(names, otherwise),
        Shape::Comma(_, _) => false,
        Shape::Subscript(_, _) => false,
        Shape::Member { .. } => false,
        Shape::Call(_, _) => false,
    }
}

// ---- operators on values

fn truth(b: bool) -> u32
    ensures { result ≡ constants.truth b }
{
    u32::from(b)
}

fn is_true(n: u32) -> bool
    ensures { result ≡ constants.is_true n }
{
    n != 0
}

fn less(unsigned: bool, a: u32, b: u32) -> bool
    ensures { result ≡ constants.less unsigned a b }
{
    if unsigned {
        a < b
    } else {
        a.cast_signed() < b.cast_signed()
    }
}

/// Whether the quotient has a value (C11 6.5.5p5, p6).
fn divides(unsigned: bool, a: u32, b: u32) -> bool
    ensures { result ≡ constants.divides unsigned a b }
{
    b != 0 && (unsigned || !(a == 2_147_483_648 && b == 4_294_967_295))
}

fn quotient(unsigned: bool, a: u32, b: u32) -> u32
    ensures { result ≡ constants.quotient unsigned a b }
{
    if unsigned { divu32(a, b) } else { divs32(a, b) }
}

fn rest(unsigned: bool, a: u32, b: u32) -> u32
    ensures { result ≡ constants.rest unsigned a b }
{
    if unsigned { remu32(a, b) } else { rems32(a, b) }
}

/// The result of a shift, where the count is small enough (C11 6.5.7p3).
fn shifted(a: u32, count: u32, value: u32) -> Option<u32>
    ensures { result ≡ constants.shifted a count value }
{
    if count < 32 { Some(value) } else { None }
}

/// The value of an operator on two values, of which the types are unsigned or aren't.
fn combined(operator: BinaryOperator, p: bool, q: bool, a: u32, b: u32) -> Option<u32>
    ensures { result ≡ constants.combined operator p q a b }
{
    match operator {
        BinaryOperator::Multiply => Some(mul32(a, b)),
        BinaryOperator::Divide => {
            if divides(p || q, a, b) {
                Some(quotient(p || q, a, b))
            } else {
                None
            }
        }
        BinaryOperator::Remainder => {
            if divides(p || q, a, b) {
                Some(rest(p || q, a, b))
            } else {
                None
            }
        }
        BinaryOperator::Add => Some(add32(a, b)),
        BinaryOperator::Subtract => Some(sub32(a, b)),
        BinaryOperator::ShiftLeft => shifted(a, b, sll32(a, b)),
        BinaryOperator::ShiftRight => shifted(a, b, if p { srl32(a, b) } else { sra32(a, b) }),
        BinaryOperator::Less => Some(truth(less(p || q, a, b))),
        BinaryOperator::LessEqual => Some(truth(!less(p || q, b, a))),
        BinaryOperator::Greater => Some(truth(less(p || q, b, a))),
        BinaryOperator::GreaterEqual => Some(truth(!less(p || q, a, b))),
        BinaryOperator::Equal => Some(truth(a == b)),
        BinaryOperator::NotEqual => Some(truth(a != b)),
        BinaryOperator::BitAnd => Some(a & b),
        BinaryOperator::BitXor => Some(a ^ b),
        BinaryOperator::BitOr => Some(a | b),
        BinaryOperator::And => Some(truth(is_true(a) && is_true(b))),
        BinaryOperator::Or => Some(truth(is_true(a) || is_true(b))),
    }
}

/// Whether the left operand decides, so that the right one isn't evaluated (C11 6.5.13p4,
/// 6.5.14p4).
fn decides(operator: BinaryOperator, a: u32) -> bool
    ensures { result ≡ constants.decides operator a }
{
    match operator {
        BinaryOperator::And => !is_true(a),
        BinaryOperator::Or => is_true(a),
        BinaryOperator::Multiply => false,
        BinaryOperator::Divide => false,
        BinaryOperator::Remainder => false,
        BinaryOperator::Add => false,
        BinaryOperator::Subtract => false,
        BinaryOperator::ShiftLeft => false,
        BinaryOperator::ShiftRight => false,
        BinaryOperator::Less => false,
        BinaryOperator::LessEqual => false,
        BinaryOperator::Greater => false,
        BinaryOperator::GreaterEqual => false,
        BinaryOperator::Equal => false,
        BinaryOperator::NotEqual => false,
        BinaryOperator::BitAnd => false,
        BinaryOperator::BitXor => false,
        BinaryOperator::BitOr => false,
    }
}

fn unary_value(operator: UnaryOperator, a: u32) -> Option<u32>
    ensures { result ≡ constants.unary_value operator a }
{
    match operator {
        UnaryOperator::Address => None,
        UnaryOperator::Indirect => None,
        UnaryOperator::Plus => Some(a),
        UnaryOperator::Minus => Some(sub32(0, a)),
        UnaryOperator::Complement => Some(a ^ 4_294_967_295),
        UnaryOperator::Not => Some(truth(a == 0)),
    }
}

// ---- type names

/// A value converted to this type (C11 6.3.1.3).
pub fn converted_to(t: &CType, n: u32) -> u32
    ensures { result ≡ constants.converted (type_tree t.now) n }
{
    match t {
        CType::Int => n,
        CType::Unsigned => n,
        CType::Char => n % 256,
        CType::Void => n,
        CType::Pointer(_) => n,
        CType::Array(_, _) => n,
        CType::Struct(_) => n,
    }
}

/// A value converted to the named type (C11 6.3.1.3).
#[tactic(auto, using(crate::proofs::KnownValues::pointer_converted))]
fn converted(names: &TypeNames, name: &TypeName, n: u32) -> Option<u32>
    ensures { result ≡ converted_known (names_tree names.now) name.now n }
{
    if !names.knows(&name.base) {
        return None;
    }
    if name.stars > 0 {
        return Some(n);
    }
    match &name.base {
        Base::Void => Some(n),
        Base::Int => Some(n),
        Base::Unsigned => Some(n),
        Base::Char => Some(n % 256),
        Base::Struct(_) => Some(n),
        Base::Named(x) => Some(converted_to(names.type_of(x)?, n)),
    }
}

/// The size of a type, within the limit.
fn type_size(env: &Env, t: &CType) -> Option<u32>
    ensures { result ≡ size_within (env_tree env.now) (type_tree t.now) }
{
    Some(extent_of(env, t)?.size)
}

fn base_size(env: &Env, names: &TypeNames, base: &Base) -> Option<u32>
    ensures { result ≡ base_size env.now (names_tree names.now) base.now }
{
    match base {
        Base::Void => None,
        Base::Int => Some(4),
        Base::Unsigned => Some(4),
        Base::Char => Some(1),
        Base::Struct(tag) => type_size(env, &CType::Struct(names.tag_place(tag)?)),
        Base::Named(x) => type_size(env, names.type_of(x)?),
    }
}

/// The size of the named type (C11 6.5.3.4).
#[tactic(auto, using(crate::proofs::KnownValues::pointer_size))]
fn named_size(env: &Env, names: &TypeNames, name: &TypeName) -> Option<u32>
    ensures { result ≡ named_size env.now (names_tree names.now) name.now }
{
    if name.stars > 0 {
        return if names.knows(&name.base) {
            Some(4)
        } else {
            None
        };
    }
    base_size(env, names, &name.base)
}

// ---- values

/// The value, where it is defined; a part that isn't evaluated needs none. Its types may speak
/// of these structs and these names of types.
#[cycle(value)]
pub fn value(env: &Env, names: &TypeNames, e: &Expr) -> Option<u32>
    ensures { result ≡ value_of (known_in env.now (names_tree names.now)) (expr_tree e.now) }
{
    shape_value(env, names, &e.shape)
}

#[cycle(value)]
fn shape_value(env: &Env, names: &TypeNames, shape: &Shape) -> Option<u32>
    ensures { result ≡ shape_value (known_in env.now (names_tree names.now)) (shape_tree shape.now) }
{
    match shape {
        Shape::Constant(n, _) => Some(*n),
        Shape::Text(_) => None,
        Shape::Name(_) => None,
        Shape::Unary(operator, a) => unary_value(*operator, value(env, names, a)?),
        Shape::Step(_, _) => None,
        Shape::Cast(name, a) => {
            if !names.knows(&name.base) {
                return None;
            }
            converted(names, name, value(env, names, a)?)
        }
        Shape::SizeofType(name) => named_size(env, names, name),
        Shape::SizeofExpr(_) => None,
        Shape::Binary {
            operator,
            left,
            right,
        } => {
            let x = value(env, names, left)?;
            if decides(*operator, x) {
                return Some(truth(is_true(x)));
            }
            combined(
                *operator,
                is_unsigned(names, left),
                is_unsigned(names, right),
                x,
                value(env, names, right)?,
            )
        }
        Shape::Assign { .. } => None,
        Shape::Conditional {
            condition,
            then,
            otherwise,
        } => {
            if is_true(value(env, names, condition)?) {
                value(env, names, then)
            } else {
                value(env, names, otherwise)
            }
        }
        Shape::Comma(_, _) => None,
        Shape::Subscript(_, _) => None,
        Shape::Member { .. } => None,
        Shape::Call(_, _) => None,
    }
}
