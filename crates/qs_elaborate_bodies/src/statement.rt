// Statements in core: lists of statements.
ghost use Rattle.std.specs.Prelude.{◌≡◌, [], ◌∷◌, OnOk, length};
ghost use Rattle.qs_core.specs.Trees as core;
ghost use Rattle.qs_elaborate_bodies.specs.Parts as parts;
ghost use Rattle.qs_elaborate_bodies.specs.CoreOf.{expression, effect, looped, statement, guarded, turn};
ghost use Rattle.qs_elaborate_bodies.specs.CoreOf.{statements_of, label_of, behind, item, labels_of};
ghost use Rattle.qs_elaborate_bodies.specs.CoreOf.{parts_of};
ghost use Rattle.qs_elaborate_bodies.specs.Results.{Adds, AddsLabels, Leaves, Makes, Lists};
ghost use Rattle.qs_elaborate_bodies.specs.Statements.{tested};

use crate::expression::{effect, expression};
use crate::labels::{label, next_part, push_label};
use crate::literals::converted;
use crate::parts::{one_statement, push, push_branch};
use qs_base::NoMemory;
use qs_core::{CoreLabel, CoreStmt};
use qs_memory::Scalar;
use qs_typed_trees::{Effect, Expression, Statement};
use std::alloc::Global;

// ---- loops

fn push_loop(
    alloc: Global,
    out: &mut Vec<CoreStmt>,
    body: Vec<CoreStmt>,
    step: Vec<CoreStmt>,
) -> Result<(), NoMemory>
    ensures { Adds (looped body step ∷ []) out.old out.new result }
{
    let body = Box::new(alloc, one_statement(body))?;
    let step = Box::new(alloc, one_statement(step))?;
    push(out, CoreStmt::Loop(body, step))
}

// The step of a `do` loop: another turn where the condition holds.
fn again(e: &Expression, alloc: Global, ts: &mut Vec<Scalar>) -> Result<Vec<CoreStmt>, NoMemory>
    ensures statements { Lists (tested (expression e.now ts.old) core.skip core.break) result }
    ensures temporaries { Leaves (expression e.now ts.old).temporaries ts.new result }
{
    let mut list = Vec::new(alloc);
    let v = expression(e, alloc, &mut list, ts)?;
    push_branch(alloc, &mut list, v, CoreStmt::Skip, CoreStmt::Break)?;
    Ok(list)
}

// The step of a `for` loop.
fn effect_list(a: &Effect, alloc: Global, ts: &mut Vec<Scalar>) -> Result<Vec<CoreStmt>, NoMemory>
    ensures statements { Lists (effect a.now ts.old).statements result }
    ensures temporaries { Leaves (effect a.now ts.old).temporaries ts.new result }
{
    let mut list = Vec::new(alloc);
    effect(a, alloc, &mut list, ts)?;
    Ok(list)
}

// ---- statements

/// A statement.
#[cycle(statement)]
pub fn statement(
    s: &Statement,
    alloc: Global,
    out: &mut Vec<CoreStmt>,
    ts: &mut Vec<Scalar>,
) -> Result<(), NoMemory>
    ensures statements { Adds (statement s.now ts.old).statements out.old out.new result }
    ensures temporaries { Leaves (statement s.now ts.old).temporaries ts.new result }
{
    match s {
        Statement::Evaluate(a) => effect(a, alloc, out, ts),
        Statement::Block(ss) => statements(ss, alloc, out, ts),
        Statement::Switch {
            promotion,
            operand,
            items: block,
        } => {
            let v = expression(operand, alloc, out, ts)?;
            let v = converted(alloc, *promotion, v)?;
            let mut labels = Vec::new(alloc);
            let mut list = Vec::new(alloc);
            items(block, alloc, &mut labels, &mut list, ts)?;
            push(out, CoreStmt::Switch(v, labels, list))
        }
        Statement::Case(_) => Ok(()),
        Statement::Default => Ok(()),
        Statement::Branch {
            condition,
            then,
            otherwise,
        } => {
            let v = expression(condition, alloc, out, ts)?;
            let met = one(then, alloc, ts)?;
            let unmet = one(otherwise, alloc, ts)?;
            push_branch(alloc, out, v, met, unmet)?;
            Ok(())
        }
        Statement::WhileLoop(e, a) => {
            let body = guarded(a, alloc, ts, e)?;
            push_loop(alloc, out, body, Vec::new(alloc))?;
            Ok(())
        }
        Statement::DoLoop(a, e) => {
            let body = list(a, alloc, ts)?;
            let step = again(e, alloc, ts)?;
            push_loop(alloc, out, body, step)?;
            Ok(())
        }
        Statement::ForLoop {
            start,
            condition,
            step,
            body,
        } => {
            effect(start, alloc, out, ts)?;
            let body = turn(body, alloc, ts, condition)?;
            let step = effect_list(step, alloc, ts)?;
            push_loop(alloc, out, body, step)?;
            Ok(())
        }
        Statement::Break => push(out, CoreStmt::Break),
        Statement::Continue => push(out, CoreStmt::Continue),
        Statement::Return(c, e) => {
            let v = expression(e, alloc, out, ts)?;
            let v = converted(alloc, *c, v)?;
            push(out, CoreStmt::Return(Some(v)))?;
            Ok(())
        }
        Statement::ReturnNothing => push(out, CoreStmt::Return(None)),
    }
}

// A statement as a list of its own.
#[cycle(statement)]
fn list(s: &Statement, alloc: Global, ts: &mut Vec<Scalar>) -> Result<Vec<CoreStmt>, NoMemory>
    ensures statements { Lists (statement s.now ts.old).statements result }
    ensures temporaries { Leaves (statement s.now ts.old).temporaries ts.new result }
{
    let mut list = Vec::new(alloc);
    statement(s, alloc, &mut list, ts)?;
    Ok(list)
}

// A statement as one statement.
#[cycle(statement)]
fn one(s: &Statement, alloc: Global, ts: &mut Vec<Scalar>) -> Result<CoreStmt, NoMemory>
    ensures statement { Makes (parts.one_statement (statement s.now ts.old).statements) result }
    ensures temporaries { Leaves (statement s.now ts.old).temporaries ts.new result }
{
    Ok(one_statement(list(s, alloc, ts)?))
}

// The body of a loop, while the condition holds.
#[cycle(statement)]
fn guarded(
    s: &Statement,
    alloc: Global,
    ts: &mut Vec<Scalar>,
    e: &Expression,
) -> Result<Vec<CoreStmt>, NoMemory>
    ensures statements { Lists (guarded e.now s.now ts.old).statements result }
    ensures temporaries { Leaves (guarded e.now s.now ts.old).temporaries ts.new result }
{
    let mut list = Vec::new(alloc);
    let v = expression(e, alloc, &mut list, ts)?;
    let body = one(s, alloc, ts)?;
    push_branch(alloc, &mut list, v, body, CoreStmt::Break)?;
    Ok(list)
}

// The body of a `for` loop, while its condition, if it has one, holds.
#[cycle(statement)]
fn turn(
    s: &Statement,
    alloc: Global,
    ts: &mut Vec<Scalar>,
    condition: &Option<Expression>,
) -> Result<Vec<CoreStmt>, NoMemory>
    ensures statements { Lists (turn condition.now s.now ts.old).statements result }
    ensures temporaries { Leaves (turn condition.now s.now ts.old).temporaries ts.new result }
{
    match condition {
        None => list(s, alloc, ts),
        Some(e) => guarded(s, alloc, ts, e),
    }
}

/// The statements of a block.
#[cycle(statement)]
pub fn statements(
    ss: &[Statement],
    alloc: Global,
    out: &mut Vec<CoreStmt>,
    ts: &mut Vec<Scalar>,
) -> Result<(), NoMemory>
    ensures statements { Adds (statements_of ss.now ts.old).statements out.old out.new result }
    ensures temporaries { Leaves (statements_of ss.now ts.old).temporaries ts.new result }
{
    for s in ss {
        statement(s, alloc, out, ts)?;
    }
    Ok(())
}

// An item of a switch: its label, or its part.
#[cycle(statement)]
fn item(
    s: &Statement,
    alloc: Global,
    labels: &mut Vec<CoreLabel>,
    out: &mut Vec<CoreStmt>,
    ts: &mut Vec<Scalar>,
) -> Result<(), NoMemory>
    ensures labels { AddsLabels (label_of out.old s.now) labels.old labels.new result }
    ensures statements { Adds (item s.now ts.old).statements out.old out.new result }
    ensures number { OnOk result (length out.new.items ≡ behind out.old s.now) }
    ensures temporaries { Leaves (item s.now ts.old).temporaries ts.new result }
{
    match label(s, next_part(out)?) {
        Some(l) => push_label(labels, l),
        None => {
            let part = one(s, alloc, ts)?;
            push(out, part)
        }
    }
}

// The items of a switch: its labels and its parts.
#[cycle(statement)]
fn items(
    ss: &[Statement],
    alloc: Global,
    labels: &mut Vec<CoreLabel>,
    out: &mut Vec<CoreStmt>,
    ts: &mut Vec<Scalar>,
) -> Result<(), NoMemory>
    ensures labels { AddsLabels (labels_of out.old ss.now) labels.old labels.new result }
    ensures statements { Adds (parts_of ss.now ts.old).statements out.old out.new result }
    ensures temporaries { Leaves (parts_of ss.now ts.old).temporaries ts.new result }
{
    for s in ss {
        item(s, alloc, labels, out, ts)?;
    }
    Ok(())
}
