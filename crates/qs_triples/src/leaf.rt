// The rule for simple statements, and for calls of the functions that the environment gives.
ghost use Rattle.std.specs.Prelude.{◌≡◌, Ok};
ghost use Rattle.qs_core.specs.TreeOf.{core_stmt, option_expr};
ghost use Rattle.qs_triples.specs.Mentions.{first_of_destination};
ghost use Rattle.qs_triples.specs.Rules as rules;
ghost use Rattle.qs_triples.specs.Rules.{unless};
ghost use Rattle.qs_triples.specs.Told.{Follows};
ghost use Rattle.qs_triples.specs.Views.{posts_view};
ghost use Rattle.qs_triples.specs.Walk.{assigned};

use crate::failure::{Cause, Failure};
use crate::mentions::{first_of, first_of_destination};
use crate::posts::Posts;
use crate::terms::{expression_term, var};
use crate::walk::failed;
use qs_assert::{Assertion, Room, Term, Var, VarKind, substitute, within};
use qs_calls::Callee;
use qs_core::{CoreExpr, CoreStmt, Target, type_of};
use std::alloc::Global;

fn copied(alloc: Global, a: &Assertion) -> Result<Assertion, Failure>
    ensures { Follows result (Ok a.now) }
{
    let b = a.copy(alloc)?;
    Ok(b)
}

/// The assertion, unless a variable is found.
pub fn kept(alloc: Global, found: Option<Var>, a: &Assertion) -> Result<Assertion, Failure>
    ensures { Follows result (unless found (Ok a.now)) }
{
    match found {
        Some(x) => Err(failed(alloc, Cause::Mentions(None, x))),
        None => copied(alloc, a),
    }
}

fn replaced(alloc: Global, x: Var, t: Option<Term>, a: &Assertion) -> Result<Assertion, Failure>
    ensures { Follows result (rules.replaced x t a.now) }
{
    match t {
        Some(t) => Ok(substitute(alloc, a, &x, &t)?),
        None => {
            let found = first_of(alloc, x.kind, a)?;
            kept(alloc, found, a)
        }
    }
}

fn target_kind(x: Target) -> VarKind
    ensures { result ≡ rules.target_kind x }
{
    match x {
        Target::Variable(x) => VarKind::Plain(x),
        Target::Temporary(k) => VarKind::Temporary(k),
    }
}

fn assigned(alloc: Global, kind: VarKind, e: &CoreExpr, a: &Assertion) -> Result<Assertion, Failure>
    ensures { Follows result (assigned kind e.now a.now) }
{
    let t = expression_term(alloc, e)?;
    replaced(alloc, var(kind, type_of(e)), t, a)
}

fn returned(alloc: Global, e: &Option<CoreExpr>, a: &Assertion) -> Result<Assertion, Failure>
    ensures { Follows result (rules.returned_rule (option_expr e.now) a.now) }
{
    match e {
        Some(e) => assigned(alloc, VarKind::Returned, e, a),
        None => {
            let found = first_of(alloc, VarKind::Returned, a)?;
            kept(alloc, found, a)
        }
    }
}

fn given(alloc: Global, destination: Option<u32>, a: &Assertion) -> Result<Assertion, Failure>
    ensures { Follows result (unless (first_of_destination destination a.now) (Ok a.now)) }
{
    let found = first_of_destination(alloc, destination, a)?;
    kept(alloc, found, a)
}

fn called(
    alloc: Global,
    destination: Option<u32>,
    g: Callee,
    a: &Assertion,
) -> Result<Assertion, Failure>
    ensures { Follows result (rules.given_rule destination g a.now) }
{
    match g {
        Callee::PutChar => given(alloc, destination, a),
        Callee::GetChar => given(alloc, destination, a),
        Callee::Function(_) => Err(failed(alloc, Cause::Shape)),
    }
}

// What must be free before a statement of a leaf.
fn leaf_rule(alloc: Global, s: &CoreStmt, q: Posts<'_>) -> Result<Assertion, Failure>
    ensures { Follows result (rules.leaf_rule (core_stmt s.now) (posts_view q.entry)) }
{
    match s {
        CoreStmt::Skip => copied(alloc, q.next),
        CoreStmt::Assign(x, e) => assigned(alloc, target_kind(*x), e, q.next),
        CoreStmt::Store(_, _, _) => copied(alloc, q.next),
        CoreStmt::Copy { .. } => copied(alloc, q.next),
        CoreStmt::Fill(_, _) => copied(alloc, q.next),
        CoreStmt::Call(x, g, _) => called(alloc, *x, *g, q.next),
        CoreStmt::Break => copied(alloc, q.on_break),
        CoreStmt::Continue => copied(alloc, q.on_continue),
        CoreStmt::Return(e) => returned(alloc, e, q.on_return),
        CoreStmt::Seq(_) => Err(failed(alloc, Cause::Shape)),
        CoreStmt::If(_, _, _) => Err(failed(alloc, Cause::Shape)),
        CoreStmt::Loop(_, _) => Err(failed(alloc, Cause::Shape)),
        CoreStmt::Switch(_, _, _) => Err(failed(alloc, Cause::Shape)),
    }
}

/// What must be free before a statement of a leaf, where there is room for it.
#[tactic(auto, using(crate::proofs::RoomLaws::failure_follows, crate::proofs::RoomLaws::needed_follows))]
pub fn leaf_pre(
    alloc: Global,
    room: &mut Room,
    s: &CoreStmt,
    q: Posts<'_>,
) -> Result<Assertion, Failure>
    ensures { Follows result (rules.leaf_rule (core_stmt s.now) (posts_view q.entry)) }
{
    let needed = leaf_rule(alloc, s, q)?;
    Ok(within(room, needed)?)
}
