// The rules for calls of functions with a body.
ghost use Rattle.std.specs.Prelude.{◌≡◌, false, IfOk, Some, option_map};
ghost use Rattle.qs_entail.specs.View.{cert_tree};
ghost use Rattle.qs_triples.specs.Replacements as replacements;
ghost use Rattle.qs_triples.specs.Rules as rules;
ghost use Rattle.qs_triples.specs.Rules.{certified};
ghost use Rattle.qs_triples.specs.Mentions.{plain_variable};
ghost use Rattle.qs_triples.specs.Told.{Follows, Passes, PassesOf, callee_view};
ghost use Rattle.qs_triples.specs.TreeOf.{entry_tree};
ghost use Rattle.qs_triples.specs.Views.{Finds, entry_in, IsKnown, callee_in, spec_in};
ghost use Rattle.qs_triples.specs.Walk.{CarriesReplaced, CarriesReplacedBehind, missing_argument};

use crate::derivation::{FunctionProof, Spec};
use crate::failure::{Cause, Failure};
use crate::mentions::{Standing, first_of_destination, first_other, variables};
use crate::posts::{Known, Posts, Scope};
use crate::replacements::{Replacement, first_missing, plain_kind, replaced};
use crate::resource::Resource;
use crate::walk::failed;
use qs_assert::{Assertion, Cond, Define, Var};
use qs_base::{FnId, NoMemory};
use qs_core::CoreExpr;
use qs_entail::{CertFault, Certificate, check};
use std::alloc::Global;

// Nothing, unless a variable is found: one of that function, if it is given, and else of the one
// that calls it.
fn none_found_of(alloc: Global, callee: Option<FnId>, found: Option<Var>) -> Result<(), Failure>
    ensures { PassesOf (callee_view callee) result found }
{
    match found {
        Some(x) => Err(failed(alloc, Cause::Mentions(callee, x))),
        None => Ok(()),
    }
}

/// Nothing, unless a variable is found.
pub fn none_found(alloc: Global, found: Option<Var>) -> Result<(), Failure>
    ensures { Passes result found }
{
    none_found_of(alloc, None, found)
}

/// The assertion r, where the certificate shows that p is at least q.
pub fn certified(
    alloc: Global,
    defines: &[Define],
    certificate: &Certificate,
    p: &Assertion,
    q: &Assertion,
    r: Assertion,
) -> Result<Assertion, Failure>
    ensures { Follows result (certified defines.now (cert_tree certificate.now) p.now q.now r) }
{
    match check(alloc, &[], defines, p, q, certificate) {
        Ok(()) => Ok(r),
        Err(CertFault::NoMemory) => Err(Failure::NoMemory),
        Err(CertFault::Step(path, rule)) => Err(failed(alloc, Cause::Step(path, rule))),
        Err(CertFault::Limit(path, limit)) => Err(failed(alloc, Cause::Limit(path, limit))),
    }
}

/// The sum of the cost of g, what it needs, and a frame.
pub fn with_frame(
    alloc: Global,
    g: FnId,
    p: Assertion,
    frame: &Assertion,
) -> Result<Assertion, NoMemory>
    ensures { IfOk result (λ a. a ≡ rules.with_frame g.0 p frame.now) }
{
    let cost = Assertion::cost(alloc, g)?;
    let frame = frame.copy(alloc)?;
    Assertion::total(alloc, &[cost, p, frame])
}

/// What is there behind a call of g with a frame, where it leaves q.
pub fn with_frame_behind(
    alloc: Global,
    resource: Resource,
    g: FnId,
    q: Assertion,
    frame: &Assertion,
) -> Result<Assertion, NoMemory>
    ensures { IfOk result (λ a. a ≡ rules.with_frame_behind resource g.0 q frame.now) }
{
    match resource {
        Resource::Stack => with_frame(alloc, g, q, frame),
        Resource::Calls => {
            let frame = frame.copy(alloc)?;
            Assertion::total(alloc, &[q, frame])
        }
    }
}

/// What comes next, or what a call of g needs, whichever is more.
pub fn around(alloc: Global, g: FnId, next: &Assertion, p: Assertion) -> Result<Assertion, NoMemory>
    ensures { IfOk result (λ a. a ≡ rules.around g.0 next.now p) }
{
    let cost = Assertion::cost(alloc, g)?;
    let needed = Assertion::total(alloc, &[cost, p])?;
    let next = next.copy(alloc)?;
    Assertion::greatest(alloc, &[next, needed])
}

/// What the branches of a conditional need.
pub fn either(
    alloc: Global,
    condition: Option<Cond>,
    a: Assertion,
    b: Assertion,
) -> Result<Assertion, NoMemory>
    ensures { IfOk result (λ r. r ≡ rules.either condition a b) }
{
    if a.same(&b) {
        return Ok(a);
    }
    match condition {
        Some(c) => Assertion::choose(alloc, &c, &a, &b),
        None => Assertion::greatest(alloc, &[a, b]),
    }
}

// ---- the callee

/// The first entry of a function.
#[tactic(auto, using(crate::proofs::ListLaws::entry_found))]
pub fn entry_in<'a>(entries: &'a [FunctionProof], g: FnId) -> Option<&'a FunctionProof>
    ensures { Finds result entry_tree (entry_in entries.now g.0) }
{
    for entry in entries {
        if entry.function.0 == g.0 {
            return Some(entry);
        }
    }
    None
}

/// The callee and its specification.
pub fn known_callee<'a>(alloc: Global, c: Scope<'a>, g: FnId) -> Result<Known<'a>, Failure>
    ensures { IsKnown result g.0 (callee_in c.entry g.0) (spec_in c.entry.entries.now g.0) }
{
    let Some(function) = c.functions.get(g.0 as usize) else {
        return Err(failed(alloc, Cause::NoSpec(g)));
    };
    let Some(entry) = entry_in(c.entries, g) else {
        return Err(failed(alloc, Cause::NoSpec(g)));
    };
    Ok(Known {
        function,
        spec: &entry.spec,
    })
}

// ---- the callee's assertions

fn missing(alloc: Global, g: FnId, r: Replacement<'_>, xs: &[Var]) -> Result<(), Failure>
    ensures { PassesOf (Some g.0) result (replacements.first_missing r.entry false xs.now) }
{
    let found = first_missing(alloc, r, false, xs)?;
    none_found_of(alloc, Some(g), found)
}

fn plain(found: Option<Var>) -> Option<Var>
    ensures { result ≡ option_map plain_variable found }
{
    let x = found?;
    Some(Var {
        kind: plain_kind(x.kind),
        number: x.number,
    })
}

fn missing_argument(alloc: Global, g: FnId, r: Replacement<'_>, xs: &[Var]) -> Result<(), Failure>
    ensures { PassesOf (Some g.0) result (missing_argument r.entry xs.now) }
{
    let found = first_missing(alloc, r, true, xs)?;
    none_found_of(alloc, Some(g), plain(found))
}

/// The assertion of the callee g in which all is replaced.
pub fn at_call(
    alloc: Global,
    g: FnId,
    r: Replacement<'_>,
    a: &Assertion,
) -> Result<Assertion, Failure>
    ensures { CarriesReplaced g.0 r.entry a.now result }
{
    let xs = variables(alloc, a)?;
    missing(alloc, g, r, &xs)?;
    Ok(replaced(alloc, r, a)?)
}

/// The same of a postcondition, whose result comes last.
pub fn behind_call(
    alloc: Global,
    g: FnId,
    r: Replacement<'_>,
    a: &Assertion,
) -> Result<Assertion, Failure>
    ensures { CarriesReplacedBehind g.0 r.entry a.now result }
{
    let xs = variables(alloc, a)?;
    missing_argument(alloc, g, r, &xs)?;
    missing(alloc, g, r, &xs)?;
    Ok(replaced(alloc, r, a)?)
}
