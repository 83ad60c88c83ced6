// The walk over a body and its derivation.
ghost use Rattle.std.specs.Prelude.{◌≡◌, length};
ghost use Rattle.qs_triples.specs.Told.{Follows};
ghost use Rattle.qs_triples.specs.TreeOf.{derivation_tree, derivation_trees};
ghost use Rattle.qs_triples.specs.Walk.{GivesBefore, body_pre_of, pre_of, sequence_pre_of};

use crate::derivation::Derivation;
use crate::failure::{Cause, Failure};
use crate::leaf::leaf_pre;
use crate::nodes::{
    balanced_pre, call_pre, chosen, concluded, conditional_at, loop_at, may_draw, sequence_at,
    switch_at, switched,
};
use crate::posts::{Posts, Scope, body_posts, step_posts, switch_posts, with_next};
use crate::switches::{Before, before_part, put};
use crate::walk::{failed, part};
use qs_assert::{Assertion, Room};
use qs_core::CoreStmt;
use std::alloc::Global;

/// What must be free before a statement, by its derivation. Its nodes are taken from the room.
#[cycle(pre)]
pub fn pre(
    alloc: Global,
    room: &mut Room,
    d: &Derivation,
    c: Scope<'_>,
    s: &CoreStmt,
    q: Posts<'_>,
) -> Result<Assertion, Failure>
    ensures { Follows result (pre_of (derivation_tree d.now) c.entry s.now q.entry) }
{
    match d {
        Derivation::Leaf => leaf_pre(alloc, room, s, q),
        Derivation::Sequence(ds) => {
            let parts = sequence_at(alloc, s, ds.len())?;
            sequence_pre(alloc, room, ds, c, parts, q)
        }
        Derivation::Conditional(first, second) => {
            let branches = conditional_at(alloc, s)?;
            let a = part(0, pre(alloc, room, first, c, branches.first, q))?;
            let b = part(1, pre(alloc, room, second, c, branches.second, q))?;
            chosen(alloc, room, branches.condition, a, b)
        }
        Derivation::Loop(invariant, certificate, body, step) => {
            let turns = loop_at(alloc, c, invariant, s)?;
            let j = part(
                1,
                pre(alloc, room, step, c, turns.step, step_posts(invariant, q)),
            )?;
            let p = part(0, pre(alloc, room, body, c, turns.body, body_posts(&j, q)))?;
            concluded(alloc, c, certificate, invariant, &p)
        }
        Derivation::Switch(ds) => {
            let cases = switch_at(alloc, s, ds.len())?;
            let before = parts_pre(alloc, room, ds, c, cases.parts, switch_posts(q))?;
            switched(alloc, room, cases, q.next, &before)
        }
        Derivation::Call(frame, certificate) => call_pre(alloc, room, frame, certificate, c, s, q),
        Derivation::BalancedCall => balanced_pre(alloc, room, c, s, q),
        Derivation::Consequence(r, certificate, inner) => {
            may_draw(alloc, c, r, inner)?;
            let p = pre(alloc, room, inner, c, s, q)?;
            concluded(alloc, c, certificate, r, &p)
        }
    }
}

// From the last part to the first.
#[cycle(pre)]
fn sequence_pre(
    alloc: Global,
    room: &mut Room,
    ds: &[Derivation],
    c: Scope<'_>,
    ss: &[CoreStmt],
    q: Posts<'_>,
) -> Result<Assertion, Failure>
    requires { length ds.now ≡ length ss.now }
    ensures { Follows result (sequence_pre_of (derivation_trees ds.now) c.entry ss.now q.entry) }
{
    let mut next = q.next.copy(alloc)?;
    let mut i = ds.len();
    while i > 0 {
        i -= 1;
        next = part(i, pre(alloc, room, &ds[i], c, &ss[i], with_next(q, &next)))?;
    }
    Ok(next)
}

// What must be free before each part, from the last to the first; behind each comes the next one.
#[cycle(pre)]
fn parts_pre(
    alloc: Global,
    room: &mut Room,
    ds: &[Derivation],
    c: Scope<'_>,
    ss: &[CoreStmt],
    q: Posts<'_>,
) -> Result<Vec<Assertion>, Failure>
    requires { length ds.now ≡ length ss.now }
    ensures { GivesBefore result (derivation_trees ds.now) c.entry ss.now q.entry }
{
    let mut before = Vec::new(alloc);
    let mut i = ds.len();
    while i > 0 {
        i -= 1;
        let b = Before {
            next: q.next,
            parts: &before,
        };
        let p = part(
            i,
            pre(
                alloc,
                room,
                &ds[i],
                c,
                &ss[i],
                with_next(q, before_part(b, 0)),
            ),
        )?;
        put(&mut before, p)?;
    }
    Ok(before)
}

/// What must be free before a body, which is a sequence.
pub fn body_pre(
    alloc: Global,
    room: &mut Room,
    d: &Derivation,
    c: Scope<'_>,
    body: &[CoreStmt],
    q: Posts<'_>,
) -> Result<Assertion, Failure>
    ensures { Follows result (body_pre_of (derivation_tree d.now) c.entry body.now q.entry) }
{
    match d {
        Derivation::Sequence(ds) => {
            if ds.len() != body.len() {
                return Err(failed(alloc, Cause::Shape));
            }
            sequence_pre(alloc, room, ds, c, body, q)
        }
        Derivation::Consequence(r, certificate, inner) => {
            may_draw(alloc, c, r, inner)?;
            let p = body_pre(alloc, room, inner, c, body, q)?;
            concluded(alloc, c, certificate, r, &p)
        }
        Derivation::Leaf => Err(failed(alloc, Cause::Shape)),
        Derivation::Conditional(_, _) => Err(failed(alloc, Cause::Shape)),
        Derivation::Loop(_, _, _, _) => Err(failed(alloc, Cause::Shape)),
        Derivation::Switch(_) => Err(failed(alloc, Cause::Shape)),
        Derivation::Call(_, _) => Err(failed(alloc, Cause::Shape)),
        Derivation::BalancedCall => Err(failed(alloc, Cause::Shape)),
    }
}
