// Which variables an assertion may mention.
ghost use Rattle.std.specs.Prelude.{◌≡◌, IfOk};
ghost use Rattle.qs_assert.specs.Variables.{variables};
ghost use Rattle.qs_core.specs.Interfaces as interfaces;
ghost use Rattle.qs_core.specs.TreeOf.{function_tree, parameter_tree};
ghost use Rattle.qs_triples.specs.Valuations as valuations;
ghost use Rattle.qs_triples.specs.Mentions as spec;
ghost use Rattle.qs_triples.specs.Standing.{allowed, first_other_at, may_mention_at};

use crate::terms::number_type;
use qs_assert::{Assertion, Node, NumberType, TermNode, Var, VarKind};
use qs_base::NoMemory;
use qs_calls::Parameter;
use qs_core::{CoreFunction, CoreParameter};
use qs_memory::{Scalar, is_integer};
use std::alloc::Global;

/// Where an assertion stands.
#[derive(Clone, Copy)]
pub enum Standing {
    /// It is a precondition.
    Before,
    /// It is a postcondition.
    Behind,
    /// It stands in a body.
    Within,
}

// ---- the variables of a function

fn if_number(s: Scalar) -> Option<NumberType>
    ensures { result ≡ valuations.if_number s }
{
    if is_integer(s) {
        Some(number_type(s))
    } else {
        None
    }
}

fn number_of(s: Option<Scalar>) -> Option<NumberType>
    ensures { result ≡ valuations.number_if s }
{
    if_number(s?)
}

fn variable_type(f: &CoreFunction, x: u32) -> Option<Scalar>
    ensures { result ≡ interfaces.variable_type (function_tree f.now) x }
{
    Some(f.variables.get(x as usize)?.scalar)
}

fn temporary_type(f: &CoreFunction, k: u32) -> Option<Scalar>
    ensures { result ≡ interfaces.temporary_type (function_tree f.now) k }
{
    Some(*f.temporaries.get(k as usize)?)
}

fn own_type(f: &CoreFunction, kind: VarKind) -> Option<NumberType>
    ensures { result ≡ valuations.own_type (function_tree f.now) kind }
{
    match kind {
        VarKind::Plain(x) => number_of(variable_type(f, x)),
        VarKind::Temporary(k) => number_of(temporary_type(f, k)),
        VarKind::Old(x) => number_of(variable_type(f, x)),
        VarKind::Returned => number_of(f.result_type),
    }
}

fn is_own(f: &CoreFunction, x: Var) -> bool
    ensures { result ≡ valuations.is_own (function_tree f.now) x }
{
    match own_type(f, x.kind) {
        None => false,
        Some(own) => own.same(x.number),
    }
}

// ---- where

fn is_plain(p: &CoreParameter) -> bool
    ensures { result ≡ spec.is_plain (parameter_tree p.now).place }
{
    match p.place {
        Parameter::Plain(_) => true,
        Parameter::Placed(_, _) => false,
    }
}

fn has_plain_parameter(f: &CoreFunction, x: u32) -> bool
    ensures { result ≡ spec.has_plain_parameter (function_tree f.now) x }
{
    match f.parameters.get(x as usize) {
        None => false,
        Some(p) => is_plain(p),
    }
}

/// The value of a placed parameter is in its block, and no variable's.
fn has_placed_parameter(f: &CoreFunction, x: u32) -> bool
    ensures { result ≡ spec.has_placed_parameter (function_tree f.now) x }
{
    match f.parameters.get(x as usize) {
        None => false,
        Some(p) => !is_plain(p),
    }
}

fn in_pre(f: &CoreFunction, kind: VarKind) -> bool
    ensures { result ≡ spec.in_pre (function_tree f.now) kind }
{
    match kind {
        VarKind::Plain(x) => has_plain_parameter(f, x),
        VarKind::Temporary(_) => false,
        VarKind::Old(_) => false,
        VarKind::Returned => false,
    }
}

fn in_post(f: &CoreFunction, kind: VarKind) -> bool
    ensures { result ≡ spec.in_post (function_tree f.now) kind }
{
    match kind {
        VarKind::Plain(_) => false,
        VarKind::Temporary(_) => false,
        VarKind::Old(x) => has_plain_parameter(f, x),
        VarKind::Returned => true,
    }
}

fn in_body(f: &CoreFunction, kind: VarKind) -> bool
    ensures { result ≡ spec.in_body (function_tree f.now) kind }
{
    match kind {
        VarKind::Plain(x) => !has_placed_parameter(f, x),
        VarKind::Temporary(_) => true,
        VarKind::Old(x) => has_plain_parameter(f, x),
        VarKind::Returned => true,
    }
}

fn is_allowed(standing: Standing, f: &CoreFunction, kind: VarKind) -> bool
    ensures { result ≡ allowed standing (function_tree f.now) kind }
{
    match standing {
        Standing::Before => in_pre(f, kind),
        Standing::Behind => in_post(f, kind),
        Standing::Within => in_body(f, kind),
    }
}

/// Whether an assertion of the function that stands there may mention the variable.
pub fn may_mention(f: &CoreFunction, standing: Standing, x: Var) -> bool
    ensures { result ≡ may_mention_at standing (function_tree f.now) x }
{
    is_allowed(standing, f, x.kind) && is_own(f, x)
}

// ---- the variables of an assertion

/// The variables that an assertion mentions, in the order of the text.
pub fn variables(alloc: Global, a: &Assertion) -> Result<Vec<Var>, NoMemory>
    ensures { IfOk result (λ xs. xs.items ≡ variables a.now) }
{
    let mut xs = Vec::new(alloc);
    let nodes = a.nodes();
    for node in nodes {
        if let Node::Term(TermNode::Variable(x)) = node {
            xs.push(*x)?;
        }
    }
    Ok(xs)
}

/// The first variable that an assertion mentions and may not.
pub fn first_other(
    alloc: Global,
    f: &CoreFunction,
    standing: Standing,
    a: &Assertion,
) -> Result<Option<Var>, NoMemory>
    ensures { IfOk result (λ x. x ≡ first_other_at standing (function_tree f.now) a.now) }
{
    let xs = variables(alloc, a)?;
    Ok(xs.iter().copied().find(|x| !may_mention(f, standing, *x)))
}

/// The first mention of a variable of this kind.
pub fn first_of(alloc: Global, kind: VarKind, a: &Assertion) -> Result<Option<Var>, NoMemory>
    ensures { IfOk result (λ x. x ≡ spec.first_of kind a.now) }
{
    let xs = variables(alloc, a)?;
    Ok(xs.iter().copied().find(|x| x.kind.same(kind)))
}

/// The first mention of the temporary that a call's result goes to.
pub fn first_of_destination(
    alloc: Global,
    destination: Option<u32>,
    a: &Assertion,
) -> Result<Option<Var>, NoMemory>
    ensures { IfOk result (λ x. x ≡ spec.first_of_destination destination a.now) }
{
    match destination {
        None => Ok(None),
        Some(k) => first_of(alloc, VarKind::Temporary(k), a),
    }
}
