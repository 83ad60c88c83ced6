// What operators ask of their operands, and the types that they give (C11 6.5.2 to 6.5.15). An
// expression is judged where its parts have types.
ghost use Rattle.std.specs.Prelude.{◌≡◌, IfOk};
ghost use Rattle.qs_types.specs.EnvOf.{env_tree};
ghost use Rattle.qs_types.specs.Expressions.{may_add, may_subtract, difference_type, may_order};
ghost use Rattle.qs_types.specs.Expressions.{order_judged, truth_judged};
ghost use Rattle.qs_types.specs.TypeOf.{type_tree};
ghost use Rattle.qs_typing_findings.specs.JudgedOf.{judged_tree};
ghost use Rattle.qs_typing_findings.specs.Judging.{IsArithmetic, IsBinary, IsConditional, IsDifference};
ghost use Rattle.qs_typing_findings.specs.Judging.{IsEquality, IsIntegers, IsSubscript, IsSum, IsUnary};
ghost use Rattle.qs_typing_findings.specs.Judging.{JudgesBinary, JudgesComma, JudgesConditional, JudgesStep};
ghost use Rattle.qs_typing_findings.specs.Judging.{JudgesSubscript, JudgesUnary, may_equal};

use crate::judged::{Judged, keeps, violates, with_tests};
use crate::operands::{alike_pointers, is_lvalue};
use crate::types::{both_integers, common, decayed, is_object_pointer, referenced, same_pointers};
use qs_base::NoMemory;
use qs_syntax::Expr;
use qs_syntax_vocabulary::{BinaryOperator, UnaryOperator};
use qs_types::{CType, Env, Rule, arithmetic, is_integer, is_pointer, is_scalar, promoted};
use std::alloc::Global;

// ---- one operand (6.5.2.4, 6.5.3)

fn unary_judged(
    alloc: Global,
    types: &Env,
    operator: UnaryOperator,
    a: &Expr,
    t: CType,
) -> Result<Judged, NoMemory>
    ensures { IfOk result (IsUnary types.now operator a.now t) }
{
    match operator {
        UnaryOperator::Address => {
            let of = CType::Pointer(Box::new(alloc, t)?);
            with_tests(alloc, &[keeps(Rule::AddressOperand, is_lvalue(a))], of)
        }
        UnaryOperator::Indirect => {
            let v = decayed(t);
            let holds = is_object_pointer(types, &v);
            with_tests(alloc, &[keeps(Rule::IndirectOperand, holds)], referenced(v))
        }
        UnaryOperator::Plus => integer_judged(alloc, &decayed(t)),
        UnaryOperator::Minus => integer_judged(alloc, &decayed(t)),
        UnaryOperator::Complement => integer_judged(alloc, &decayed(t)),
        UnaryOperator::Not => {
            let holds = is_scalar(&decayed(t));
            with_tests(alloc, &[keeps(Rule::ArithmeticOperand, holds)], CType::Int)
        }
    }
}

fn integer_judged(alloc: Global, v: &CType) -> Result<Judged, NoMemory>
    ensures { IfOk result (IsArithmetic v.now) }
{
    let holds = is_integer(v);
    with_tests(alloc, &[keeps(Rule::ArithmeticOperand, holds)], promoted(v))
}

/// A unary operator.
pub fn judge_unary(
    alloc: Global,
    types: &Env,
    operator: UnaryOperator,
    a: &Expr,
    t: Option<CType>,
) -> Result<Option<Judged>, NoMemory>
    ensures { IfOk result (JudgesUnary types.now operator a.now t) }
{
    match t {
        None => Ok(None),
        Some(t) => Ok(Some(unary_judged(alloc, types, operator, a, t)?)),
    }
}

/// A step by one.
pub fn judge_step(
    alloc: Global,
    types: &Env,
    a: &Expr,
    t: Option<CType>,
) -> Result<Option<Judged>, NoMemory>
    ensures { IfOk result (JudgesStep types.now a.now t) }
{
    match t {
        None => Ok(None),
        Some(t) => {
            let holds = is_lvalue(a) && (is_integer(&t) || is_object_pointer(types, &t));
            Ok(Some(with_tests(alloc, &[keeps(Rule::StepOperand, holds)], t)?))
        }
    }
}

// ---- two operands (6.5.5 to 6.5.14)

fn may_add(types: &Env, t: &CType, u: &CType) -> bool
    ensures { result ≡ may_add (env_tree types.now) (type_tree t.now) (type_tree u.now) }
{
    both_integers(t, u)
        || is_object_pointer(types, t) && is_integer(u)
        || is_integer(t) && is_object_pointer(types, u)
}

fn may_subtract(types: &Env, t: &CType, u: &CType) -> bool
    ensures { result ≡ may_subtract (env_tree types.now) (type_tree t.now) (type_tree u.now) }
{
    both_integers(t, u) || is_object_pointer(types, t) && (is_integer(u) || t.same(u))
}

fn difference_type(t: CType, u: CType) -> CType
    ensures { type_tree result ≡ difference_type (type_tree t) (type_tree u) }
{
    if is_pointer(&t) && is_pointer(&u) {
        CType::Int
    } else {
        common(t, u)
    }
}

fn may_order(t: &CType, u: &CType) -> bool
    ensures { result ≡ may_order (type_tree t.now) (type_tree u.now) }
{
    both_integers(t, u) || same_pointers(t, u)
}

fn may_equal(a: &Expr, t: &CType, b: &Expr, u: &CType) -> bool
    ensures { result ≡ may_equal a.now t.now b.now u.now }
{
    both_integers(t, u) || alike_pointers(a, t, b, u)
}

fn integers_judged(alloc: Global, t: &CType, u: &CType, of: CType) -> Result<Judged, NoMemory>
    ensures { IfOk result (IsIntegers t.now u.now of) }
{
    with_tests(
        alloc,
        &[keeps(Rule::IntegerOperands, both_integers(t, u))],
        of,
    )
}

fn order_judged(alloc: Global, t: &CType, u: &CType) -> Result<Judged, NoMemory>
    ensures { IfOk result (λ j. judged_tree j ≡ order_judged (type_tree t.now) (type_tree u.now)) }
{
    with_tests(
        alloc,
        &[keeps(Rule::OrderOperands, may_order(t, u))],
        CType::Int,
    )
}

fn equality_judged(
    alloc: Global,
    a: &Expr,
    t: &CType,
    b: &Expr,
    u: &CType,
) -> Result<Judged, NoMemory>
    ensures { IfOk result (IsEquality a.now t.now b.now u.now) }
{
    with_tests(
        alloc,
        &[keeps(Rule::EqualityOperands, may_equal(a, t, b, u))],
        CType::Int,
    )
}

fn truth_judged(alloc: Global, t: &CType, u: &CType) -> Result<Judged, NoMemory>
    ensures { IfOk result (λ j. judged_tree j ≡ truth_judged (type_tree t.now) (type_tree u.now)) }
{
    let holds = is_scalar(t) && is_scalar(u);
    with_tests(alloc, &[keeps(Rule::TruthOperand, holds)], CType::Int)
}

fn sum_judged(alloc: Global, types: &Env, t: CType, u: CType) -> Result<Judged, NoMemory>
    ensures { IfOk result (IsSum types.now t u) }
{
    let holds = may_add(types, &t, &u);
    with_tests(alloc, &[keeps(Rule::SumOperands, holds)], common(t, u))
}

fn difference_judged(alloc: Global, types: &Env, t: CType, u: CType) -> Result<Judged, NoMemory>
    ensures { IfOk result (IsDifference types.now t u) }
{
    let holds = may_subtract(types, &t, &u);
    with_tests(
        alloc,
        &[keeps(Rule::SumOperands, holds)],
        difference_type(t, u),
    )
}

fn binary_judged(
    alloc: Global,
    types: &Env,
    operator: BinaryOperator,
    a: &Expr,
    t: CType,
    b: &Expr,
    u: CType,
) -> Result<Judged, NoMemory>
    ensures { IfOk result (IsBinary types.now operator a.now t b.now u) }
{
    match operator {
        BinaryOperator::Multiply => integers_judged(alloc, &t, &u, arithmetic(&t, &u)),
        BinaryOperator::Divide => integers_judged(alloc, &t, &u, arithmetic(&t, &u)),
        BinaryOperator::Remainder => integers_judged(alloc, &t, &u, arithmetic(&t, &u)),
        BinaryOperator::Add => sum_judged(alloc, types, t, u),
        BinaryOperator::Subtract => difference_judged(alloc, types, t, u),
        BinaryOperator::ShiftLeft => integers_judged(alloc, &t, &u, promoted(&t)),
        BinaryOperator::ShiftRight => integers_judged(alloc, &t, &u, promoted(&t)),
        BinaryOperator::Less => order_judged(alloc, &t, &u),
        BinaryOperator::LessEqual => order_judged(alloc, &t, &u),
        BinaryOperator::Greater => order_judged(alloc, &t, &u),
        BinaryOperator::GreaterEqual => order_judged(alloc, &t, &u),
        BinaryOperator::Equal => equality_judged(alloc, a, &t, b, &u),
        BinaryOperator::NotEqual => equality_judged(alloc, a, &t, b, &u),
        BinaryOperator::BitAnd => integers_judged(alloc, &t, &u, arithmetic(&t, &u)),
        BinaryOperator::BitXor => integers_judged(alloc, &t, &u, arithmetic(&t, &u)),
        BinaryOperator::BitOr => integers_judged(alloc, &t, &u, arithmetic(&t, &u)),
        BinaryOperator::And => truth_judged(alloc, &t, &u),
        BinaryOperator::Or => truth_judged(alloc, &t, &u),
    }
}

/// An operator between two operands.
pub fn judge_binary(
    alloc: Global,
    types: &Env,
    operator: BinaryOperator,
    a: &Expr,
    t: Option<CType>,
    b: &Expr,
    u: Option<CType>,
) -> Result<Option<Judged>, NoMemory>
    ensures { IfOk result (JudgesBinary types.now operator a.now t b.now u) }
{
    match t {
        None => Ok(None),
        Some(t) => match u {
            None => Ok(None),
            Some(u) => Ok(Some(binary_judged(
                alloc,
                types,
                operator,
                a,
                decayed(t),
                b,
                decayed(u),
            )?)),
        },
    }
}

// ---- choices, commas and subscripts (6.5.15, 6.5.17, 6.5.2.1)

fn conditional_judged(
    alloc: Global,
    s: &CType,
    a: &Expr,
    t: CType,
    b: &Expr,
    u: CType,
) -> Result<Judged, NoMemory>
    ensures { IfOk result (IsConditional s.now a.now t b.now u) }
{
    let holds = is_scalar(s) && (both_integers(&t, &u) || alike_pointers(a, &t, b, &u));
    with_tests(alloc, &[keeps(Rule::BranchTypes, holds)], common(t, u))
}

/// `d ? a : b`
pub fn judge_conditional(
    alloc: Global,
    s: Option<CType>,
    a: &Expr,
    t: Option<CType>,
    b: &Expr,
    u: Option<CType>,
) -> Result<Option<Judged>, NoMemory>
    ensures { IfOk result (JudgesConditional s a.now t b.now u) }
{
    match s {
        None => Ok(None),
        Some(s) => match t {
            None => Ok(None),
            Some(t) => match u {
                None => Ok(None),
                Some(u) => Ok(Some(conditional_judged(
                    alloc,
                    &decayed(s),
                    a,
                    decayed(t),
                    b,
                    decayed(u),
                )?)),
            },
        },
    }
}

/// `a, b`
pub fn judge_comma(
    alloc: Global,
    t: Option<CType>,
    u: Option<CType>,
) -> Result<Option<Judged>, NoMemory>
    ensures { IfOk result (JudgesComma t u) }
{
    match t {
        None => Ok(None),
        Some(_) => match u {
            None => Ok(None),
            Some(u) => Ok(Some(with_tests(alloc, &[], decayed(u))?)),
        },
    }
}

fn subscript_judged(alloc: Global, types: &Env, t: CType, u: CType) -> Result<Judged, NoMemory>
    ensures { IfOk result (IsSubscript types.now t u) }
{
    let adds = may_add(types, &t, &u);
    let sum = common(t, u);
    let broken = adds && !is_object_pointer(types, &sum);
    with_tests(
        alloc,
        &[
            keeps(Rule::SumOperands, adds),
            violates(Rule::IndirectOperand, broken),
        ],
        referenced(sum),
    )
}

/// `a[b]`
pub fn judge_subscript(
    alloc: Global,
    types: &Env,
    t: Option<CType>,
    u: Option<CType>,
) -> Result<Option<Judged>, NoMemory>
    ensures { IfOk result (JudgesSubscript types.now t u) }
{
    match t {
        None => Ok(None),
        Some(t) => match u {
            None => Ok(None),
            Some(u) => Ok(Some(subscript_judged(alloc, types, decayed(t), decayed(u))?)),
        },
    }
}
