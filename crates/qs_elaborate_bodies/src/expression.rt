// Expressions in core: their statements are pushed, their temporaries added, and their value is the
// answer.
ghost use Rattle.std.specs.Prelude.{◌≡◌, IfOk};
ghost use Rattle.qs_core.specs.TreeOf.{core_expr, core_exprs};
ghost use Rattle.qs_typed_trees.specs.TreeOf.{expression_tree};
ghost use Rattle.qs_elaborate_bodies.specs.CoreOf.{converted, expression, operand, address, value_of};
ghost use Rattle.qs_elaborate_bodies.specs.CoreOf.{arguments, called, assignment, effect, effects};
ghost use Rattle.qs_elaborate_bodies.specs.CoreOf.{statements_in, conjunction, disjunction, choice};
ghost use Rattle.qs_elaborate_bodies.specs.CoreOf.{written_at};
ghost use Rattle.qs_elaborate_bodies.specs.Results.{Adds, Leaves, Gives, Locates};
ghost use Rattle.qs_elaborate_bodies.specs.Acting.{acts};
ghost use Rattle.qs_elaborate_bodies.specs.Laws.{has_any};

use crate::acting::{acts, arguments_act};
use crate::branching::{Branch, acted, and_branching, choice_branching, one_acted, or_branching};
use crate::literals::converted;
use crate::operations::{block_of, operated, updated};
use crate::parts::{
    Location, conditional, discarded, logical_and, logical_or, member, new_temporary, push,
    saved_if, unary, value_at, value_in,
};
use crate::reserving::{reserve, settle};
use crate::writing::{Written, step_valued, write_discarded, write_valued};
use qs_base::NoMemory;
use qs_calls::Callee;
use qs_core::{CoreExpr, CoreStmt};
use qs_memory::Scalar;
use qs_typed_trees::{Argument, Assignment, Conversion, Effect, Expression, Lvalue};
use std::alloc::Global;

/// An expression.
#[cycle(expression)]
pub fn expression(
    e: &Expression,
    alloc: Global,
    out: &mut Vec<CoreStmt>,
    ts: &mut Vec<Scalar>,
) -> Result<CoreExpr, NoMemory>
    ensures statements { Adds (expression e.now ts.old).statements out.old out.new result }
    ensures value { Gives (expression e.now ts.old).value result }
    ensures temporaries { Leaves (expression e.now ts.old).temporaries ts.new result }
{
    match e {
        Expression::Constant(s, n) => Ok(CoreExpr::Literal(*s, *n)),
        Expression::Value(s, l) => value_of(l, alloc, out, ts, *s),
        Expression::PointerTo(o) => Ok(CoreExpr::Address(block_of(*o))),
        Expression::Member(offset, a) => {
            let v = expression(a, alloc, out, ts)?;
            member(alloc, *offset, v)
        }
        Expression::Called(s, f, given) => called(given, alloc, out, ts, *s, *f),
        Expression::SteppedAfter {
            scalar,
            lvalue,
            operation,
            operand,
            back,
        } => {
            let at = address(lvalue, alloc, out, ts, false)?;
            let v = step_valued(alloc, out, ts, *scalar, *operation, *operand, *back, at)?;
            Ok(v)
        }
        Expression::Unary(operation, c, a) => {
            let v = expression(a, alloc, out, ts)?;
            let v = converted(alloc, *c, v)?;
            unary(alloc, *operation, v)
        }
        Expression::Cast(c, a) => {
            let v = expression(a, alloc, out, ts)?;
            converted(alloc, *c, v)
        }
        Expression::Binary {
            operation,
            order,
            before_left,
            before_right,
            left,
            right,
        } => {
            let v = expression(left, alloc, out, ts)?;
            let reserved = reserve(out, ts, &v)?;
            let w = expression(right, alloc, out, ts)?;
            let v = settle(out, ts, reserved, v);
            let x = operated(alloc, *operation, *order, *before_left, *before_right, v, w)?;
            Ok(x)
        }
        Expression::LogicalAnd(a, b) => {
            let v = expression(a, alloc, out, ts)?;
            let w = conjunction(b, alloc, out, ts, v)?;
            Ok(w)
        }
        Expression::LogicalOr(a, b) => {
            let v = expression(a, alloc, out, ts)?;
            let w = disjunction(b, alloc, out, ts, v)?;
            Ok(w)
        }
        Expression::Conditional {
            scalar,
            condition,
            before_then,
            before_otherwise,
            then,
            otherwise,
        } => {
            let v = expression(condition, alloc, out, ts)?;
            let met = branch(then, alloc, ts)?;
            let s = *scalar;
            let second = *before_then;
            let third = *before_otherwise;
            let w = choice(otherwise, alloc, out, ts, s, second, third, v, met)?;
            Ok(w)
        }
        Expression::Assigned(a) => {
            let w = assignment(a, alloc, out, ts)?;
            let v = write_valued(out, ts, w)?;
            Ok(v)
        }
        Expression::Sequence(a, b) => {
            effect(a, alloc, out, ts)?;
            let v = expression(b, alloc, out, ts)?;
            Ok(v)
        }
    }
}

// An operand, which has to last where a later one acts.
#[cycle(expression)]
fn operand(
    e: &Expression,
    alloc: Global,
    out: &mut Vec<CoreStmt>,
    ts: &mut Vec<Scalar>,
    later_acts: bool,
) -> Result<CoreExpr, NoMemory>
    ensures statements { Adds (operand later_acts e.now ts.old).statements out.old out.new result }
    ensures value { Gives (operand later_acts e.now ts.old).value result }
    ensures temporaries { Leaves (operand later_acts e.now ts.old).temporaries ts.new result }
{
    let v = expression(e, alloc, out, ts)?;
    let w = saved_if(out, ts, later_acts, v)?;
    Ok(w)
}

// An operand, its statements in a list of their own.
#[cycle(expression)]
fn branch(e: &Expression, alloc: Global, ts: &mut Vec<Scalar>) -> Result<Branch, NoMemory>
    ensures acted { IfOk result (λ b. has_any (statements_in b) ≡ acts (expression_tree e.now)) }
    ensures statements { IfOk result (λ b. statements_in b ≡ (expression e.now ts.old).statements) }
    ensures value { IfOk result (λ b. core_expr b.value ≡ (expression e.now ts.old).value) }
    ensures temporaries { Leaves (expression e.now ts.old).temporaries ts.new result }
{
    let mut statements = Vec::new(alloc);
    let value = expression(e, alloc, &mut statements, ts)?;
    Ok(Branch { statements, value })
}

// ---- `&&`, `||` and `?:`, behind the first operand, whose value is v

#[cycle(expression)]
fn conjunction(
    b: &Expression,
    alloc: Global,
    out: &mut Vec<CoreStmt>,
    ts: &mut Vec<Scalar>,
    v: CoreExpr,
) -> Result<CoreExpr, NoMemory>
    ensures statements { Adds (conjunction v b.now ts.old).statements out.old out.new result }
    ensures value { Gives (conjunction v b.now ts.old).value result }
    ensures temporaries { Leaves (conjunction v b.now ts.old).temporaries ts.new result }
{
    let b = branch(b, alloc, ts)?;
    if acted(&b) {
        let w = and_branching(alloc, out, ts, v, b)?;
        Ok(w)
    } else {
        let w = logical_and(alloc, v, b.value)?;
        Ok(w)
    }
}

#[cycle(expression)]
fn disjunction(
    b: &Expression,
    alloc: Global,
    out: &mut Vec<CoreStmt>,
    ts: &mut Vec<Scalar>,
    v: CoreExpr,
) -> Result<CoreExpr, NoMemory>
    ensures statements { Adds (disjunction v b.now ts.old).statements out.old out.new result }
    ensures value { Gives (disjunction v b.now ts.old).value result }
    ensures temporaries { Leaves (disjunction v b.now ts.old).temporaries ts.new result }
{
    let k = new_temporary(ts, Scalar::Int)?;
    let b = branch(b, alloc, ts)?;
    if acted(&b) {
        let w = or_branching(alloc, out, k, v, b)?;
        Ok(w)
    } else {
        ts.truncate(k as usize);
        let w = logical_or(alloc, v, b.value)?;
        Ok(w)
    }
}

// The second operand gave a branch; c and d are the conversions of the second operand and the
// third.
#[cycle(expression)]
fn choice(
    b: &Expression,
    alloc: Global,
    out: &mut Vec<CoreStmt>,
    ts: &mut Vec<Scalar>,
    s: Scalar,
    c: Conversion,
    d: Conversion,
    v: CoreExpr,
    met: Branch,
) -> Result<CoreExpr, NoMemory>
    ensures statements { Adds (choice s c d v met b.now ts.old).statements out.old out.new result }
    ensures value { Gives (choice s c d v met b.now ts.old).value result }
    ensures temporaries { Leaves (choice s c d v met b.now ts.old).temporaries ts.new result }
{
    let k = new_temporary(ts, s)?;
    let unmet = branch(b, alloc, ts)?;
    let some_acted = one_acted(&met, &unmet);
    let met = converted_branch(alloc, c, met)?;
    let unmet = converted_branch(alloc, d, unmet)?;
    if some_acted {
        let w = choice_branching(alloc, out, s, k, v, met, unmet)?;
        Ok(w)
    } else {
        ts.truncate(k as usize);
        let w = conditional(alloc, v, met.value, unmet.value)?;
        Ok(w)
    }
}

fn converted_branch(alloc: Global, c: Conversion, b: Branch) -> Result<Branch, NoMemory>
    ensures statements { IfOk result (λ d. statements_in d ≡ statements_in b) }
    ensures value { IfOk result (λ d. core_expr d.value ≡ converted c b.value) }
{
    let value = converted(alloc, c, b.value)?;
    Ok(Branch {
        statements: b.statements,
        value,
    })
}

// ---- lvalues

// Where an lvalue stands; its address has to last where a later operand acts.
#[cycle(expression)]
fn address(
    l: &Lvalue,
    alloc: Global,
    out: &mut Vec<CoreStmt>,
    ts: &mut Vec<Scalar>,
    later_acts: bool,
) -> Result<Location, NoMemory>
    ensures statements { Adds (address later_acts l.now ts.old).statements out.old out.new result }
    ensures location { Locates (address later_acts l.now ts.old).location result }
    ensures temporaries { Leaves (address later_acts l.now ts.old).temporaries ts.new result }
{
    match l {
        Lvalue::Variable(x) => Ok(Location::Plain(*x)),
        Lvalue::Object(a) => {
            let p = operand(a, alloc, out, ts, later_acts)?;
            Ok(Location::Pointed(p))
        }
    }
}

// The value that an lvalue has.
#[cycle(expression)]
fn value_of(
    l: &Lvalue,
    alloc: Global,
    out: &mut Vec<CoreStmt>,
    ts: &mut Vec<Scalar>,
    s: Scalar,
) -> Result<CoreExpr, NoMemory>
    ensures statements { Adds (value_of s l.now ts.old).statements out.old out.new result }
    ensures value { Gives (value_of s l.now ts.old).value result }
    ensures temporaries { Leaves (value_of s l.now ts.old).temporaries ts.new result }
{
    let at = address(l, alloc, out, ts, false)?;
    value_in(alloc, s, at)
}

// ---- calls

// The arguments of a call, each converted to its parameter's type.
#[cycle(expression)]
fn arguments(
    given: &[Argument],
    alloc: Global,
    out: &mut Vec<CoreStmt>,
    ts: &mut Vec<Scalar>,
) -> Result<Vec<CoreExpr>, NoMemory>
    ensures statements { Adds (arguments given.now ts.old).statements out.old out.new result }
    ensures values { IfOk result (λ vs. core_exprs vs.items ≡ (arguments given.now ts.old).values) }
    ensures temporaries { Leaves (arguments given.now ts.old).temporaries ts.new result }
{
    let mut values = Vec::new(alloc);
    for i in 0..given.len() {
        let later_acts = arguments_act(&given[i + 1..]);
        let v = operand(&given[i].value, alloc, out, ts, later_acts)?;
        values.push(converted(alloc, given[i].conversion, v)?)?;
    }
    Ok(values)
}

// A call whose result is used.
#[cycle(expression)]
fn called(
    given: &[Argument],
    alloc: Global,
    out: &mut Vec<CoreStmt>,
    ts: &mut Vec<Scalar>,
    s: Scalar,
    f: Callee,
) -> Result<CoreExpr, NoMemory>
    ensures statements { Adds (called s f given.now ts.old).statements out.old out.new result }
    ensures value { Gives (called s f given.now ts.old).value result }
    ensures temporaries { Leaves (called s f given.now ts.old).temporaries ts.new result }
{
    let values = arguments(given, alloc, out, ts)?;
    let k = new_temporary(ts, s)?;
    push(out, CoreStmt::Call(Some(k), f, values))?;
    Ok(CoreExpr::Temporary(s, k))
}

// ---- assignments

// What an assignment writes where.
#[cycle(expression)]
fn assignment(
    a: &Assignment,
    alloc: Global,
    out: &mut Vec<CoreStmt>,
    ts: &mut Vec<Scalar>,
) -> Result<Written, NoMemory>
    ensures statements { Adds (assignment a.now ts.old).statements out.old out.new result }
    ensures scalar { IfOk result (λ w. w.scalar ≡ (assignment a.now ts.old).scalar) }
    ensures location { IfOk result (λ w. written_at w ≡ (assignment a.now ts.old).location) }
    ensures value { IfOk result (λ w. core_expr w.value ≡ (assignment a.now ts.old).value) }
    ensures temporaries { Leaves (assignment a.now ts.old).temporaries ts.new result }
{
    match a {
        Assignment::Set {
            scalar,
            lvalue,
            conversion,
            value,
        } => {
            let location = address(lvalue, alloc, out, ts, acts(value))?;
            let v = expression(value, alloc, out, ts)?;
            let value = converted(alloc, *conversion, v)?;
            let scalar = *scalar;
            Ok(Written {
                scalar,
                location,
                value,
            })
        }
        Assignment::Update {
            scalar,
            lvalue,
            operation,
            before_left,
            before_right,
            back,
            value,
        } => {
            let later_acts = acts(value);
            let location = address(lvalue, alloc, out, ts, later_acts)?;
            let old = value_at(alloc, *scalar, &location)?;
            let old = saved_if(out, ts, later_acts, old)?;
            let new = expression(value, alloc, out, ts)?;
            let value = updated(
                alloc,
                *operation,
                *before_left,
                *before_right,
                *back,
                old,
                new,
            )?;
            let scalar = *scalar;
            Ok(Written {
                scalar,
                location,
                value,
            })
        }
    }
}

// ---- effects

/// An expression whose value is discarded, or what a declaration does.
#[cycle(expression)]
pub fn effect(
    a: &Effect,
    alloc: Global,
    out: &mut Vec<CoreStmt>,
    ts: &mut Vec<Scalar>,
) -> Result<(), NoMemory>
    ensures statements { Adds (effect a.now ts.old).statements out.old out.new result }
    ensures temporaries { Leaves (effect a.now ts.old).temporaries ts.new result }
{
    match a {
        Effect::Nothing => Ok(()),
        Effect::Discard(e) => {
            let v = expression(e, alloc, out, ts)?;
            discarded(out, ts, v)?;
            Ok(())
        }
        Effect::Assign(a) => {
            let w = assignment(a, alloc, out, ts)?;
            write_discarded(out, w)?;
            Ok(())
        }
        Effect::Perform(f, given) => {
            let values = arguments(given, alloc, out, ts)?;
            push(out, CoreStmt::Call(None, *f, values))?;
            Ok(())
        }
        Effect::Copy {
            size,
            alignment,
            to,
            from,
        } => {
            let to = operand(to, alloc, out, ts, acts(from))?;
            let from = expression(from, alloc, out, ts)?;
            push(
                out,
                CoreStmt::Copy {
                    size: *size,
                    alignment: *alignment,
                    to,
                    from,
                },
            )?;
            Ok(())
        }
        Effect::Fill(blank, e) => {
            let at = expression(e, alloc, out, ts)?;
            let blank = blank.copy(alloc)?;
            push(out, CoreStmt::Fill(blank, at))?;
            Ok(())
        }
        Effect::InOrder(a, b) => {
            effect(a, alloc, out, ts)?;
            effect(b, alloc, out, ts)
        }
        Effect::Each(all) => effects(all, alloc, out, ts),
    }
}

#[cycle(expression)]
fn effects(
    all: &[Effect],
    alloc: Global,
    out: &mut Vec<CoreStmt>,
    ts: &mut Vec<Scalar>,
) -> Result<(), NoMemory>
    ensures statements { Adds (effects all.now ts.old).statements out.old out.new result }
    ensures temporaries { Leaves (effects all.now ts.old).temporaries ts.new result }
{
    for a in all {
        effect(a, alloc, out, ts)?;
    }
    Ok(())
}
