// Terms and conditions as text.
ghost use Rattle.qs_core.specs.Puts.{Puts};
ghost use Rattle.qs_core.specs.TextOf as texts;
ghost use Rattle.qs_core.specs.TermTexts as spec;

use crate::conditions::condition_of;
use crate::expressions::CoreExpr;
use crate::names::{put, put_number, put_temporary, put_variable, put_whole};
use crate::term::{
    ConditionPair, CoreCondition, CoreTerm, TermComparison, TermOperation, TermPair,
};
use crate::term_length::{condition_length, term_length};
use crate::terms::term_of;
use crate::units::CoreFunction;
use qs_base::NoMemory;
use qs_memory::Signedness;
use std::alloc::Global;

// ---- heads

fn put_operation(out: &mut Vec<u8>, op: TermOperation) -> Result<(), NoMemory>
    ensures { Puts out.old (spec.operation_head op) out.new result }
{
    match op {
        TermOperation::Add => put(out, b"add"),
        TermOperation::Subtract => put(out, b"sub"),
        TermOperation::Multiply => put(out, b"mul"),
    }
}

fn put_wrap(out: &mut Vec<u8>, s: Signedness) -> Result<(), NoMemory>
    ensures { Puts out.old (spec.wrap_head s) out.new result }
{
    match s {
        Signedness::Signed => put(out, b"wraps"),
        Signedness::Unsigned => put(out, b"wrapu"),
    }
}

fn put_comparison(out: &mut Vec<u8>, op: TermComparison) -> Result<(), NoMemory>
    ensures { Puts out.old (spec.comparison_head op) out.new result }
{
    match op {
        TermComparison::LessOrEqual => put(out, b"le"),
        TermComparison::Less => put(out, b"lt"),
        TermComparison::Equal => put(out, b"eq"),
        TermComparison::NotEqual => put(out, b"ne"),
    }
}

// ---- terms

// `t u`
#[cycle(put_term)]
fn put_pair(out: &mut Vec<u8>, f: &CoreFunction, p: &TermPair) -> Result<(), NoMemory>
    ensures { Puts out.old (texts.pair f.now p.now) out.new result }
{
    put_term(out, f, &p.left)?;
    put(out, b" ")?;
    put_term(out, f, &p.right)
}

// `(op t u)`
#[cycle(put_term)]
fn put_combined(
    out: &mut Vec<u8>,
    f: &CoreFunction,
    op: TermOperation,
    p: &TermPair,
) -> Result<(), NoMemory>
    ensures { Puts out.old (texts.combined f.now op p.now) out.new result }
{
    put(out, b"(")?;
    put_operation(out, op)?;
    put(out, b" ")?;
    put_pair(out, f, p)?;
    put(out, b")")
}

// `(div t k)`
#[cycle(put_term)]
fn put_quotient(out: &mut Vec<u8>, f: &CoreFunction, t: &CoreTerm, k: u32) -> Result<(), NoMemory>
    ensures { Puts out.old (texts.quotient f.now t.now k) out.new result }
{
    put(out, b"(div ")?;
    put_term(out, f, t)?;
    put(out, b" ")?;
    put_number(out, k)?;
    put(out, b")")
}

// `(sub t (mul k (div t k)))`
#[cycle(put_term)]
fn put_remainder(out: &mut Vec<u8>, f: &CoreFunction, t: &CoreTerm, k: u32) -> Result<(), NoMemory>
    ensures { Puts out.old (texts.remainder f.now t.now k) out.new result }
{
    put(out, b"(sub ")?;
    put_term(out, f, t)?;
    put(out, b" (mul ")?;
    put_number(out, k)?;
    put(out, b" ")?;
    put_quotient(out, f, t, k)?;
    put(out, b"))")
}

// `(wraps t)` or `(wrapu t)`
#[cycle(put_term)]
fn put_wrapped(
    out: &mut Vec<u8>,
    f: &CoreFunction,
    s: Signedness,
    t: &CoreTerm,
) -> Result<(), NoMemory>
    ensures { Puts out.old (texts.wrapped f.now s t.now) out.new result }
{
    put(out, b"(")?;
    put_wrap(out, s)?;
    put(out, b" ")?;
    put_term(out, f, t)?;
    put(out, b")")
}

/// Writes a term. A remainder has its dividend twice, so the text may be much longer than the term
/// is high.
#[cycle(put_term)]
pub fn put_term(out: &mut Vec<u8>, f: &CoreFunction, t: &CoreTerm) -> Result<(), NoMemory>
    ensures { Puts out.old (texts.term f.now t.now) out.new result }
{
    match t {
        CoreTerm::Number(n) => put_whole(out, *n),
        CoreTerm::Variable(_, x) => put_variable(out, f, *x),
        CoreTerm::Temporary(_, k) => put_temporary(out, *k),
        CoreTerm::Combined(op, p) => put_combined(out, f, *op, p),
        CoreTerm::Divide(t, k) => put_quotient(out, f, t, *k),
        CoreTerm::Remainder(t, k) => put_remainder(out, f, t, *k),
        CoreTerm::Wrapped(s, t) => put_wrapped(out, f, *s, t),
    }
}

// ---- conditions

fn put_compared(
    out: &mut Vec<u8>,
    f: &CoreFunction,
    op: TermComparison,
    p: &TermPair,
) -> Result<(), NoMemory>
    ensures { Puts out.old (texts.compared f.now op p.now) out.new result }
{
    put(out, b"(")?;
    put_comparison(out, op)?;
    put(out, b" ")?;
    put_pair(out, f, p)?;
    put(out, b")")
}

#[cycle(put_condition)]
fn put_negation(out: &mut Vec<u8>, f: &CoreFunction, c: &CoreCondition) -> Result<(), NoMemory>
    ensures { Puts out.old (texts.negation f.now c.now) out.new result }
{
    put(out, b"(not ")?;
    put_condition(out, f, c)?;
    put(out, b")")
}

// `(head c d)`
#[cycle(put_condition)]
fn put_both(
    out: &mut Vec<u8>,
    f: &CoreFunction,
    head: &[u8],
    p: &ConditionPair,
) -> Result<(), NoMemory>
    ensures { Puts out.old (texts.both f.now head.now p.now) out.new result }
{
    put(out, b"(")?;
    put(out, head)?;
    put(out, b" ")?;
    put_condition(out, f, &p.left)?;
    put(out, b" ")?;
    put_condition(out, f, &p.right)?;
    put(out, b")")
}

/// Writes a condition.
#[cycle(put_condition)]
pub fn put_condition(out: &mut Vec<u8>, f: &CoreFunction, c: &CoreCondition) -> Result<(), NoMemory>
    ensures { Puts out.old (texts.condition f.now c.now) out.new result }
{
    match c {
        CoreCondition::Compared(op, p) => put_compared(out, f, *op, p),
        CoreCondition::Not(c) => put_negation(out, f, c),
        CoreCondition::And(p) => put_both(out, f, b"and", p),
        CoreCondition::Or(p) => put_both(out, f, b"or", p),
    }
}

// ---- what stands in an outline

fn put_term_or_mark(
    out: &mut Vec<u8>,
    f: &CoreFunction,
    t: &Option<CoreTerm>,
) -> Result<(), NoMemory>
    ensures { Puts out.old (texts.term_or_mark f.now t.now) out.new result }
{
    match t {
        None => put(out, b"?"),
        Some(t) => {
            out.reserve(term_length(f, t))?;
            put_term(out, f, t)
        }
    }
}

fn put_condition_or_mark(
    out: &mut Vec<u8>,
    f: &CoreFunction,
    c: &Option<CoreCondition>,
) -> Result<(), NoMemory>
    ensures { Puts out.old (texts.condition_or_mark f.now c.now) out.new result }
{
    match c {
        None => put(out, b"?"),
        Some(c) => {
            out.reserve(condition_length(f, c))?;
            put_condition(out, f, c)
        }
    }
}

/// Writes the term of an expression, or `?` where it has none. Room for the whole text is taken
/// first, so a text that no memory holds is answered at once.
pub fn put_expr(
    alloc: Global,
    out: &mut Vec<u8>,
    f: &CoreFunction,
    e: &CoreExpr,
) -> Result<(), NoMemory>
    ensures { Puts out.old (texts.expression f.now e.now) out.new result }
{
    let t = term_of(alloc, e)?;
    put_term_or_mark(out, f, &t)
}

/// Writes the condition of an expression, or `?` where it has none, in the same way.
pub fn put_test(
    alloc: Global,
    out: &mut Vec<u8>,
    f: &CoreFunction,
    e: &CoreExpr,
) -> Result<(), NoMemory>
    ensures { Puts out.old (texts.test f.now e.now) out.new result }
{
    let c = condition_of(alloc, e)?;
    put_condition_or_mark(out, f, &c)
}
