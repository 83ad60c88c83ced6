// The check of a certificate under hypotheses.
ghost use Rattle.std.specs.Prelude.{◌≡◌, [], IfOk, OnOk};
ghost use Rattle.qs_entail.specs.Checking.{TellsRootStands, TellsRest, TellsUnder, TellsVerdict};
ghost use Rattle.qs_entail.specs.Meaning.{AboveInOrder};
ghost use Rattle.qs_entail.specs.Pushing.{at_first};
ghost use Rattle.qs_entail.specs.Standing.{told};
ghost use Rattle.qs_entail.specs.Walking.{place};

use crate::certificate::Certificate;
use crate::failed::{Failed, failure};
use crate::fault::CertFault;
use crate::known::Known;
use crate::outlining::{Outline, outlined};
use crate::pushing::push_list;
use crate::standing::{rule_of, stands};
use crate::walk::Walk;
use qs_assert::{Assertion, AssertionView, Cond, Define};
use qs_base::NoMemory;
use qs_poly::Poly;
use std::alloc::Global;

/// The fault of a walk that stopped at this path.
fn told(path: Vec<usize>, failed: Failed) -> CertFault
    ensures { result ≡ told path failed }
{
    match failed {
        Failed::NoMemory => CertFault::NoMemory,
        Failed::Step(rule) => CertFault::Step(path, rule),
        Failed::Limit(limit) => CertFault::Limit(path, limit),
    }
}

/// A walk at the root, where 1 is known to be at least 0. It passes no limit.
fn at_root(alloc: Global) -> Result<Walk, NoMemory>
    ensures { IfOk result (λ walk. place walk ≡ record { path = []; known = at_first }) }
{
    let unit = Poly::number(alloc, 1).map_err(|_fault| NoMemory)?;
    let mut polynomials = Vec::new(alloc);
    polynomials.push(unit)?;
    Ok(Walk {
        alloc,
        path: Vec::new(alloc),
        known: Known {
            conditions: Vec::new(alloc),
            polynomials,
        },
    })
}

/// Whether the root's side condition holds under the hypotheses, polynomials aside.
fn root_stands(
    alloc: Global,
    hypotheses: &[Cond],
    defines: &[Define],
    p: &AssertionView<'_>,
    q: &AssertionView<'_>,
    certificate: &Certificate,
) -> Result<bool, NoMemory>
    ensures { TellsRootStands hypotheses.now defines.now p.now q.now certificate.now result }
{
    let outline = outlined(alloc, hypotheses)?;
    let Outline { conditions, count } = outline;
    Ok(stands(certificate, defines, &conditions, count, p, q))
}

/// Walks over the certificate, whose root stands.
#[tactic(auto, using(crate::proofs::StandingLaws::tells_fault, crate::proofs::StandingLaws::tells_ok))]
fn walked(
    mut walk: Walk,
    defines: &[Define],
    p: &AssertionView<'_>,
    q: &AssertionView<'_>,
    certificate: &Certificate,
) -> Result<(), CertFault>
    requires { walk.path.items ≡ [] }
    ensures { TellsRest certificate.now defines.now walk.known p.now q.now result }
{
    match walk.check_rest(defines, certificate, p, q) {
        Ok(()) => Ok(()),
        Err(failed) => Err(told(walk.path, failed)),
    }
}

/// Pushes the hypotheses, and walks over the certificate.
#[tactic(auto, using(crate::proofs::StandingLaws::tells_stopped, crate::proofs::StandingLaws::tells_given))]
fn walked_under(
    alloc: Global,
    hypotheses: &[Cond],
    defines: &[Define],
    p: &AssertionView<'_>,
    q: &AssertionView<'_>,
    certificate: &Certificate,
) -> Result<(), CertFault>
    ensures { TellsUnder hypotheses.now defines.now p.now q.now certificate.now result }
{
    let mut walk = at_root(alloc)?;
    match push_list(alloc, hypotheses, &mut walk.known) {
        Ok(()) => walked(walk, defines, p, q, certificate),
        Err(stop) => Err(told(walk.path, failure(rule_of(certificate), stop))),
    }
}

#[tactic(auto, using(crate::proofs::StandingLaws::root_stands, crate::proofs::StandingLaws::root_fails))]
fn checked(
    alloc: Global,
    hypotheses: &[Cond],
    defines: &[Define],
    p: &AssertionView<'_>,
    q: &AssertionView<'_>,
    certificate: &Certificate,
) -> Result<(), CertFault>
    ensures { TellsVerdict hypotheses.now defines.now p.now q.now certificate.now result }
{
    if !root_stands(alloc, hypotheses, defines, p, q, certificate)? {
        let at_root = Failed::Step(rule_of(certificate));
        return Err(told(Vec::new(alloc), at_root));
    }
    walked_under(alloc, hypotheses, defines, p, q, certificate)
}

/// Checks that a certificate shows under the hypotheses that P is at least Q.
///
/// `Step` is the first node whose side condition fails, `Limit` the first at which a polynomial
/// passes a limit, a node being before its parts. Where the definitions are in order, each
/// mentioning only earlier ones, an `Ok` implies that P is at least Q for all costs, in each state
/// in which the hypotheses hold.
pub fn check(
    alloc: Global,
    hypotheses: &[Cond],
    defines: &[Define],
    p: &Assertion,
    q: &Assertion,
    certificate: &Certificate,
) -> Result<(), CertFault>
    ensures exact { TellsVerdict hypotheses.now defines.now p.now q.now certificate.now result }
    ensures sound { OnOk result (AboveInOrder hypotheses.now defines.now p.now q.now) }
{
    let left = p.view();
    let right = q.view();
    checked(alloc, hypotheses, defines, &left, &right, certificate)
}
