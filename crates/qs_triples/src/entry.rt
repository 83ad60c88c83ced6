// The check of an entry.
ghost use Rattle.std.specs.Prelude.{◌≡◌, IfOk};
ghost use Rattle.qs_core.specs.TreeOf.{core_stmt, core_stmts, function_tree};
ghost use Rattle.qs_core.specs.Trees.{stmts_of};
ghost use Rattle.qs_triples.specs.Checking.{WasDue, first_fault, body_fault, entry_certificate};
ghost use Rattle.qs_triples.specs.Entries as entries;
ghost use Rattle.qs_triples.specs.Entries.{result_at_end};
ghost use Rattle.qs_triples.specs.Standing.{first_other_at};
ghost use Rattle.qs_triples.specs.Told.{Tells, TellsMention, TellsResult};
ghost use Rattle.qs_triples.specs.TreeOf.{entry_tree};
ghost use Rattle.qs_triples.specs.Views.{scope_view};

use crate::body::body_pre;
use crate::derivation::FunctionProof;
use crate::failure::{Cause, Failure};
use crate::fault::{DerivFault, Place};
use crate::mentions::{Standing, first_of, first_other};
use crate::posts::{Posts, Scope};
use crate::replacements::{Replacement, replaced};
use qs_assert::{Assertion, Room, Var, VarKind};
use qs_base::NoMemory;
use qs_core::{CoreFunction, CoreStmt};
use qs_entail::{CertFault, check};
use std::alloc::Global;

// ---- faults

// The fault of a walk that ended so.
#[tactic(auto, using(crate::proofs::EntryLaws::told_faults))]
fn told(failure: Failure) -> DerivFault
    ensures { WasDue failure result }
{
    let Failure::Fault(mut path, cause) = failure else {
        return DerivFault::NoMemory;
    };
    path.reverse();
    match cause {
        Cause::Shape => DerivFault::Shape(path),
        Cause::Mentions(callee, x) => DerivFault::Mentions(Place::Node(path), callee, x),
        Cause::Step(inner, rule) => DerivFault::Cert(path, CertFault::Step(inner, rule)),
        Cause::Limit(inner, limit) => DerivFault::Cert(path, CertFault::Limit(inner, limit)),
        Cause::NoSpec(g) => DerivFault::NoSpec(path, g),
    }
}

// Nothing, unless a variable is found that may not be mentioned there.
fn not_mentioned(place: Place, found: Option<Var>) -> Result<(), DerivFault>
    ensures { TellsMention place found result }
{
    match found {
        None => Ok(()),
        Some(x) => Err(DerivFault::Mentions(place, None, x)),
    }
}

// ---- assertions

fn check_mentions(
    alloc: Global,
    f: &CoreFunction,
    standing: Standing,
    place: Place,
    a: &Assertion,
) -> Result<(), DerivFault>
    ensures { TellsMention place (first_other_at standing (function_tree f.now) a.now) result }
{
    let found = first_other(alloc, f, standing, a)?;
    not_mentioned(place, found)
}

fn is_return(s: &CoreStmt) -> bool
    ensures { result ≡ entries.is_return (core_stmt s.now) }
{
    match s {
        CoreStmt::Return(_) => true,
        CoreStmt::Skip => false,
        CoreStmt::Seq(_) => false,
        CoreStmt::Assign(_, _) => false,
        CoreStmt::Store(_, _, _) => false,
        CoreStmt::Copy { .. } => false,
        CoreStmt::Fill(_, _) => false,
        CoreStmt::Call(_, _, _) => false,
        CoreStmt::If(_, _, _) => false,
        CoreStmt::Loop(_, _) => false,
        CoreStmt::Switch(_, _, _) => false,
        CoreStmt::Break => false,
        CoreStmt::Continue => false,
    }
}

#[tactic(auto, using(crate::proofs::EntryLaws::ends_as_last))]
fn ends_in_return(body: &[CoreStmt]) -> bool
    ensures { result ≡ entries.ends_in_return (stmts_of (core_stmts body.now)) }
{
    match body.last() {
        None => false,
        Some(s) => is_return(s),
    }
}

fn result_at_end(alloc: Global, f: &CoreFunction, post: &Assertion) -> Result<Option<Var>, NoMemory>
    ensures { IfOk result (λ x. x ≡ result_at_end (function_tree f.now) post.now) }
{
    if ends_in_return(&f.body) {
        Ok(None)
    } else {
        first_of(alloc, VarKind::Returned, post)
    }
}

fn check_end(alloc: Global, f: &CoreFunction, post: &Assertion) -> Result<(), DerivFault>
    ensures { TellsResult (function_tree f.now) post.now result }
{
    let found = result_at_end(alloc, f, post)?;
    not_mentioned(Place::Postcondition, found)
}

// ---- the body

// That the precondition is at least what the body needs.
fn check_certificate(
    alloc: Global,
    c: Scope<'_>,
    e: &FunctionProof,
    needed: &Assertion,
) -> Result<(), DerivFault>
    ensures { Tells result (entry_certificate (scope_view c.entry) (entry_tree e.now) needed.now) }
{
    let plain = replaced(alloc, Replacement::AsPlain, needed)?;
    match check(alloc, &[], c.defines, &e.spec.pre, &plain, &e.entry) {
        Ok(()) => Ok(()),
        Err(CertFault::NoMemory) => Err(DerivFault::NoMemory),
        Err(CertFault::Step(path, rule)) => Err(DerivFault::Entry(CertFault::Step(path, rule))),
        Err(CertFault::Limit(path, limit)) => Err(DerivFault::Entry(CertFault::Limit(path, limit))),
    }
}

#[tactic(auto, using(crate::proofs::EntryLaws::tells_behind))]
fn check_body(
    alloc: Global,
    room: &mut Room,
    c: Scope<'_>,
    e: &FunctionProof,
) -> Result<(), DerivFault>
    ensures { Tells result (body_fault (scope_view c.entry) (entry_tree e.now)) }
{
    let post = &e.spec.post;
    let posts = Posts {
        next: post,
        on_break: post,
        on_continue: post,
        on_return: post,
    };
    match body_pre(alloc, room, &e.body, c, &c.function.body, posts) {
        Ok(needed) => check_certificate(alloc, c, e, &needed),
        Err(failure) => Err(told(failure)),
    }
}

/// Checks the entry of a function, the definitions aside.
#[tactic(auto, using(crate::proofs::EntryLaws::due_first, crate::proofs::EntryLaws::tells_next))]
pub fn check_entry(
    alloc: Global,
    room: &mut Room,
    c: Scope<'_>,
    e: &FunctionProof,
) -> Result<(), DerivFault>
    ensures { Tells result (first_fault (scope_view c.entry) (entry_tree e.now)) }
{
    check_mentions(
        alloc,
        c.function,
        Standing::Before,
        Place::Precondition,
        &e.spec.pre,
    )?;
    check_mentions(
        alloc,
        c.function,
        Standing::Behind,
        Place::Postcondition,
        &e.spec.post,
    )?;
    check_end(alloc, c.function, &e.spec.post)?;
    check_body(alloc, room, c, e)
}
