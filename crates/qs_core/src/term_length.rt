// How long terms and conditions are as text. A number that passes usize stands still at its end.
ghost use Rattle.std.specs.Prelude.{◌≡◌, ◌+◌, ◌≤◌, length, decimal};
ghost use Rattle.std.specs.Fmt.{signed_decimal};
ghost use Rattle.qs_core.specs.TreeOf.{function_tree, variable_tree};
ghost use Rattle.qs_core.specs.TextOf as texts;
ghost use Rattle.qs_core.specs.TermTexts as spec;
ghost use Rattle.qs_core.specs.TermLengths.{saturated};

use crate::term::{
    ConditionPair, CoreCondition, CoreTerm, TermComparison, TermOperation, TermPair,
};
use crate::units::{CoreFunction, CoreVariable};
use itoa::Buffer;
use qs_memory::Signedness;

// The length of `(head t)`, where the head has so many bytes, and t has this length.
fn applied_length(head: usize, t: usize) -> usize
    requires { head ≤ 5 }
    ensures { result ≡ saturated (3 + head + t) }
{
    t.saturating_add(3 + head)
}

// The length of `(head t u)`.
fn both_length(head: usize, t: usize, u: usize) -> usize
    requires { head ≤ 5 }
    ensures { result ≡ saturated (4 + head + t + u) }
{
    t.saturating_add(u).saturating_add(4 + head)
}

fn number_length(k: u32) -> usize
    ensures length { result ≡ length (decimal k) }
    ensures short { result ≤ 40 }
{
    let mut digits = Buffer::new();
    digits.format(k).len()
}

fn whole_length(n: i64) -> usize
    ensures { result ≡ saturated (length (signed_decimal n)) }
{
    let mut digits = Buffer::new();
    digits.format(n).len()
}

fn temporary_length(k: u32) -> usize
    ensures { result ≡ saturated (length (spec.temporary_text k)) }
{
    1 + number_length(k)
}

fn ordinal_length(k: u32) -> usize
    ensures { result ≡ length (spec.ordinal_text k) }
{
    if k == 1 {
        return 0;
    }
    1 + number_length(k)
}

fn name_length(v: &CoreVariable) -> usize
    ensures { result ≡ saturated (length (spec.variable_name (variable_tree v.now))) }
{
    v.name
        .bytes()
        .len()
        .saturating_add(ordinal_length(v.ordinal))
}

fn variable_length(f: &CoreFunction, x: u32) -> usize
    ensures { result ≡ saturated (length (spec.variable_text (function_tree f.now) x)) }
{
    match f.variables.get(x as usize) {
        None => 0,
        Some(v) => name_length(v),
    }
}

// The length of `(op t u)`.
#[cycle(term_length)]
fn combined_length(f: &CoreFunction, op: TermOperation, p: &TermPair) -> usize
    ensures { result ≡ saturated (length (texts.combined f.now op p.now)) }
{
    both_length(3, term_length(f, &p.left), term_length(f, &p.right))
}

// The length of `(div t k)`.
#[cycle(term_length)]
fn quotient_length(f: &CoreFunction, t: &CoreTerm, k: u32) -> usize
    ensures { result ≡ saturated (length (texts.quotient f.now t.now k)) }
{
    both_length(3, term_length(f, t), number_length(k))
}

// The length of `(sub t (mul k (div t k)))`.
#[cycle(term_length)]
fn remainder_length(f: &CoreFunction, t: &CoreTerm, k: u32) -> usize
    ensures { result ≡ saturated (length (texts.remainder f.now t.now k)) }
{
    let t = term_length(f, t);
    let product = both_length(3, number_length(k), both_length(3, t, number_length(k)));
    both_length(3, t, product)
}

// The length of `(wraps t)`.
#[cycle(term_length)]
fn wrapped_length(f: &CoreFunction, s: Signedness, t: &CoreTerm) -> usize
    ensures { result ≡ saturated (length (texts.wrapped f.now s t.now)) }
{
    applied_length(5, term_length(f, t))
}

/// The length of a term's text.
#[cycle(term_length)]
pub fn term_length(f: &CoreFunction, t: &CoreTerm) -> usize
    ensures { result ≡ saturated (length (texts.term f.now t.now)) }
{
    match t {
        CoreTerm::Number(n) => whole_length(*n),
        CoreTerm::Variable(_, x) => variable_length(f, *x),
        CoreTerm::Temporary(_, k) => temporary_length(*k),
        CoreTerm::Combined(op, p) => combined_length(f, *op, p),
        CoreTerm::Divide(t, k) => quotient_length(f, t, *k),
        CoreTerm::Remainder(t, k) => remainder_length(f, t, *k),
        CoreTerm::Wrapped(s, t) => wrapped_length(f, *s, t),
    }
}

// ---- conditions

fn compared_length(f: &CoreFunction, op: TermComparison, p: &TermPair) -> usize
    ensures { result ≡ saturated (length (texts.compared f.now op p.now)) }
{
    both_length(2, term_length(f, &p.left), term_length(f, &p.right))
}

#[cycle(condition_length)]
fn negation_length(f: &CoreFunction, c: &CoreCondition) -> usize
    ensures { result ≡ saturated (length (texts.negation f.now c.now)) }
{
    applied_length(3, condition_length(f, c))
}

// The length of `(head c d)`, where the head has so many bytes.
#[cycle(condition_length)]
fn conditions_length(f: &CoreFunction, head: usize, p: &ConditionPair) -> usize
    requires { head ≤ 5 }
    ensures { result ≡ saturated (texts.both_length f.now head p.now) }
{
    both_length(
        head,
        condition_length(f, &p.left),
        condition_length(f, &p.right),
    )
}

/// The length of a condition's text.
#[cycle(condition_length)]
pub fn condition_length(f: &CoreFunction, c: &CoreCondition) -> usize
    ensures { result ≡ saturated (length (texts.condition f.now c.now)) }
{
    match c {
        CoreCondition::Compared(op, p) => compared_length(f, *op, p),
        CoreCondition::Not(c) => negation_length(f, c),
        CoreCondition::And(p) => conditions_length(f, 3, p),
        CoreCondition::Or(p) => conditions_length(f, 2, p),
    }
}
