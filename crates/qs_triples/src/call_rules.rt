// The rules for calls of functions with a body.
ghost use Rattle.std.specs.Prelude.{◌≡◌, IfOk};
ghost use Rattle.qs_triples.specs.Rules as rules;
ghost use Rattle.qs_triples.specs.TreeOf.{spec_tree};
ghost use Rattle.qs_triples.specs.Walk.{FollowsBalancedCall, FollowsCall};

use crate::calls::{
    around, at_call, behind_call, certified, none_found, with_frame, with_frame_behind,
};
use crate::derivation::Spec;
use crate::failure::{Cause, Failure};
use crate::forms::Site;
use crate::mentions::{Standing, first_of_destination, first_other};
use crate::posts::{Known, Posts, Scope};
use crate::replacements::{Replacement, replaced};
use crate::walk::failed;
use qs_assert::Assertion;
use qs_base::NoMemory;
use qs_entail::Certificate;
use std::alloc::Global;

/// What must be free before a call with a frame.
pub fn call_rule(
    alloc: Global,
    c: Scope<'_>,
    q: Posts<'_>,
    frame: &Assertion,
    certificate: &Certificate,
    site: Site<'_>,
    k: Known<'_>,
) -> Result<Assertion, Failure>
    ensures { FollowsCall c.entry q.entry frame.now certificate.now site.entry k.entry result }
{
    let other = first_other(alloc, c.function, Standing::Within, frame)?;
    none_found(alloc, other)?;
    let touched = first_of_destination(alloc, site.destination, frame)?;
    none_found(alloc, touched)?;
    let before = Replacement::BeforeCall(k.function, site.arguments);
    let p = at_call(alloc, site.function, before, &k.spec.pre)?;
    let behind = Replacement::BehindCall(k.function, site.destination, site.arguments);
    let r = behind_call(alloc, site.function, behind, &k.spec.post)?;
    let shown = with_frame_behind(alloc, c.resource, site.function, r, frame)?;
    let whole = with_frame(alloc, site.function, p, frame)?;
    certified(alloc, c.defines, certificate, &shown, q.next, whole)
}

fn is_balanced(alloc: Global, spec: &Spec) -> Result<bool, NoMemory>
    ensures { IfOk result (λ b. b ≡ rules.is_balanced (spec_tree spec.now)) }
{
    let old = replaced(alloc, Replacement::AsOld, &spec.pre)?;
    Ok(spec.post.same(&old))
}

/// What must be free before a call of a function that gives back what it takes.
pub fn balanced_rule(
    alloc: Global,
    q: Posts<'_>,
    site: Site<'_>,
    k: Known<'_>,
) -> Result<Assertion, Failure>
    ensures { FollowsBalancedCall q.entry site.entry k.entry result }
{
    if !is_balanced(alloc, k.spec)? {
        return Err(failed(alloc, Cause::Shape));
    }
    let touched = first_of_destination(alloc, site.destination, q.next)?;
    none_found(alloc, touched)?;
    let before = Replacement::BeforeCall(k.function, site.arguments);
    let p = at_call(alloc, site.function, before, &k.spec.pre)?;
    Ok(around(alloc, site.function, q.next, p)?)
}
