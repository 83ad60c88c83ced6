// What the rules ask at a node, but for its parts.
ghost use Rattle.std.specs.Prelude.{◌≡◌, Ok};
ghost use Rattle.qs_core.specs.TreeOf.{core_expr};
ghost use Rattle.qs_triples.specs.Derivations.{balanced_call};
ghost use Rattle.qs_triples.specs.ExpressionTerms.{expression_condition};
ghost use Rattle.qs_triples.specs.Nodes.{GivesBranches, GivesCases, GivesParts, GivesTurns, MayDraw};
ghost use Rattle.qs_triples.specs.Rules as rules;
ghost use Rattle.qs_triples.specs.Switches.{switched_view};
ghost use Rattle.qs_triples.specs.Told.{Follows};
ghost use Rattle.qs_triples.specs.TreeOf.{derivation_tree};
ghost use Rattle.qs_triples.specs.Views.{scope_view};
ghost use Rattle.qs_triples.specs.Walk.{call_with, concluded, pre_of};

use crate::call_rules::{balanced_rule, call_rule};
use crate::calls::{certified, either, known_callee, none_found};
use crate::derivation::Derivation;
use crate::failure::{Cause, Failure};
use crate::forms::{Branches, Cases, Turns, branches_of, cases_of, parts_of, site_of, turns_of};
use crate::mentions::{Standing, first_other};
use crate::posts::{Posts, Scope};
use crate::resource::Resource;
use crate::switches::{Before, by_labels};
use crate::terms::expression_condition;
use crate::walk::failed;
use qs_assert::{Assertion, Room, within};
use qs_core::{CoreExpr, CoreStmt};
use qs_entail::Certificate;
use std::alloc::Global;

// ---- forms of statements

/// The parts of a sequence that has so many.
#[tactic(auto, using(crate::proofs::NodeLaws::has_parts, crate::proofs::NodeLaws::other_count))]
pub fn sequence_at<'a>(
    alloc: Global,
    s: &'a CoreStmt,
    derivations: usize,
) -> Result<&'a [CoreStmt], Failure>
    ensures { GivesParts result s.now derivations }
{
    let Some(parts) = parts_of(s) else {
        return Err(failed(alloc, Cause::Shape));
    };
    if parts.len() == derivations {
        Ok(parts)
    } else {
        Err(failed(alloc, Cause::Shape))
    }
}

/// The parts of a conditional.
pub fn conditional_at<'a>(alloc: Global, s: &'a CoreStmt) -> Result<Branches<'a>, Failure>
    ensures { GivesBranches result s.now }
{
    match branches_of(s) {
        None => Err(failed(alloc, Cause::Shape)),
        Some(branches) => Ok(branches),
    }
}

/// The parts of a loop, where its invariant mentions only what it may.
pub fn loop_at<'a>(
    alloc: Global,
    c: Scope<'_>,
    invariant: &Assertion,
    s: &'a CoreStmt,
) -> Result<Turns<'a>, Failure>
    ensures { GivesTurns result (scope_view c.entry) invariant.now s.now }
{
    let Some(turns) = turns_of(s) else {
        return Err(failed(alloc, Cause::Shape));
    };
    let other = first_other(alloc, c.function, Standing::Within, invariant)?;
    none_found(alloc, other)?;
    Ok(turns)
}

/// A switch that has so many parts.
#[tactic(auto, using(crate::proofs::NodeLaws::has_cases, crate::proofs::NodeLaws::other_cases))]
pub fn switch_at<'a>(
    alloc: Global,
    s: &'a CoreStmt,
    derivations: usize,
) -> Result<Cases<'a>, Failure>
    ensures { GivesCases result s.now derivations }
{
    let Some(cases) = cases_of(s) else {
        return Err(failed(alloc, Cause::Shape));
    };
    let parts = cases.parts;
    if parts.len() == derivations {
        Ok(cases)
    } else {
        Err(failed(alloc, Cause::Shape))
    }
}

// ---- consequences

fn is_consequence(d: &Derivation) -> bool
    ensures { result ≡ rules.is_consequence (derivation_tree d.now) }
{
    match d {
        Derivation::Leaf => false,
        Derivation::Sequence(_) => false,
        Derivation::Conditional(_, _) => false,
        Derivation::Loop(_, _, _, _) => false,
        Derivation::Switch(_) => false,
        Derivation::Call(_, _) => false,
        Derivation::BalancedCall => false,
        Derivation::Consequence(_, _, _) => true,
    }
}

/// Whether r may be drawn from what d needs, its certificate aside.
pub fn may_draw(alloc: Global, c: Scope<'_>, r: &Assertion, d: &Derivation) -> Result<(), Failure>
    ensures { MayDraw result (scope_view c.entry) r.now (derivation_tree d.now) }
{
    if is_consequence(d) {
        return Err(failed(alloc, Cause::Shape));
    }
    let other = first_other(alloc, c.function, Standing::Within, r)?;
    none_found(alloc, other)
}

// ---- what is needed in the end

/// The assertion, where the certificate shows that it is at least what is needed.
pub fn concluded(
    alloc: Global,
    c: Scope<'_>,
    certificate: &Certificate,
    r: &Assertion,
    needed: &Assertion,
) -> Result<Assertion, Failure>
    ensures { Follows result (concluded c.entry certificate.now r.now needed.now) }
{
    let same = r.copy(alloc)?;
    certified(alloc, c.defines, certificate, r, needed, same)
}

/// What the branches of a conditional need.
pub fn chosen(
    alloc: Global,
    room: &mut Room,
    e: &CoreExpr,
    a: Assertion,
    b: Assertion,
) -> Result<Assertion, Failure>
    ensures { Follows result (Ok (rules.either (expression_condition (core_expr e.now)) a b)) }
{
    let condition = expression_condition(alloc, e)?;
    let needed = either(alloc, condition, a, b)?;
    Ok(within(room, needed)?)
}

/// What a switch needs, by what its parts need, the last one first.
pub fn switched(
    alloc: Global,
    room: &mut Room,
    cases: Cases<'_>,
    next: &Assertion,
    before: &[Assertion],
) -> Result<Assertion, Failure>
    ensures { Follows result (Ok (switched_view cases.entry next.now before.now)) }
{
    let b = Before {
        next,
        parts: before,
    };
    let needed = by_labels(alloc, room, b, cases.operand, cases.labels)?;
    Ok(within(room, needed)?)
}

/// What must be free before a call with a frame.
#[tactic(auto, using(crate::proofs::RoomLaws::failure_follows, crate::proofs::RoomLaws::needed_follows))]
pub fn call_pre(
    alloc: Global,
    room: &mut Room,
    frame: &Assertion,
    certificate: &Certificate,
    c: Scope<'_>,
    s: &CoreStmt,
    q: Posts<'_>,
) -> Result<Assertion, Failure>
    ensures { Follows result (pre_of (call_with frame.now certificate.now) c.entry s.now q.entry) }
{
    let Some(site) = site_of(s) else {
        return Err(failed(alloc, Cause::Shape));
    };
    let k = known_callee(alloc, c, site.function)?;
    let needed = call_rule(alloc, c, q, frame, certificate, site, k)?;
    Ok(within(room, needed)?)
}

/// What must be free before a call of a function that gives back what it takes, as none does where
/// calls are counted.
#[tactic(auto, using(crate::proofs::RoomLaws::failure_follows, crate::proofs::RoomLaws::needed_follows))]
pub fn balanced_pre(
    alloc: Global,
    room: &mut Room,
    c: Scope<'_>,
    s: &CoreStmt,
    q: Posts<'_>,
) -> Result<Assertion, Failure>
    ensures { Follows result (pre_of balanced_call c.entry s.now q.entry) }
{
    match c.resource {
        Resource::Calls => Err(failed(alloc, Cause::Shape)),
        Resource::Stack => {
            let Some(site) = site_of(s) else {
                return Err(failed(alloc, Cause::Shape));
            };
            let k = known_callee(alloc, c, site.function)?;
            let needed = balanced_rule(alloc, q, site, k)?;
            Ok(within(room, needed)?)
        }
    }
}
