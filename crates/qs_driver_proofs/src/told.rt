// A fault of an entry of a proof file, as the tool tells it: where it is, and what is wrong there.
ghost use Rattle.std.specs.Prelude.{◌≡◌, ◌<◌, IfOk, length, ℕ};
ghost use Rattle.qs_core.specs.Trees.{CoreUnitTree};
ghost use Rattle.qs_core.specs.UnitTrees.{unit_tree};
ghost use Rattle.qs_driver_session.specs.Told.{owner_of};
ghost use Rattle.qs_driver_proofs.specs.Refusals.{IsCertificateTold, IsEntryTold, IsMentionPlace};
ghost use Rattle.qs_driver_proofs.specs.Refusals.{IsWrong, TellsOfAnyFile, TellsWrong};
ghost use Rattle.qs_certify.specs.Entries.{IsMet};
ghost use Rattle.qs_certify.specs.declared.fault.CertifyFault.TheVariants as faults;
ghost use Rattle.qs_triples.specs.Told.{callee_view};
ghost use Rattle.qs_triples.specs.declared.fault.DerivFault.TheVariants as entries;

use qs_assert::Var;
use qs_base::{FnId, NoMemory};
use qs_core::{CoreUnit, name_of};
use qs_driver_session::{ProofFault, Status};
use qs_entail::CertFault;
use qs_prooftext_writing::variable_text;
use qs_report::{Path, ProofText, Spot};
use qs_triples::{DerivFault, Place};
use std::alloc::Global;

/// A place in a derivation, and what is wrong there.
#[derive(Drop)]
struct Wrong {
    spot: Spot,
    text: ProofText,
}

/// A place in a certificate, and what is wrong there.
#[derive(Drop)]
struct WrongStep {
    path: Path,
    text: ProofText,
}

fn path_of(steps: Vec<usize>) -> Path
    ensures { result.steps ≡ steps }
{
    Path { steps }
}

// The place of an assertion.
fn mention_spot(place: Place) -> Spot
    ensures { IsMentionPlace place result }
{
    match place {
        Place::Precondition => Spot::Pre,
        Place::Postcondition => Spot::Post,
        Place::Node(path) => Spot::Body(path_of(path)),
    }
}

// The function whose variable it is.
fn owner_of(f: FnId, callee: Option<FnId>) -> FnId
    ensures { result.0 ≡ owner_of f.0 (callee_view callee) }
{
    match callee {
        None => f,
        Some(g) => g,
    }
}

fn mention_told(
    alloc: Global,
    unit: &CoreUnit,
    f: FnId,
    place: Place,
    callee: Option<FnId>,
    x: Var,
) -> Result<Wrong, NoMemory>
    requires { f.0 < length unit.now.functions.items }
    ensures { TellsWrong (unit_tree unit.now) f.0 (entries.Mentions place callee x) result }
{
    Ok(Wrong {
        text: ProofText::Mentions(variable_text(alloc, unit, owner_of(f, callee), &x)?),
        spot: mention_spot(place),
    })
}

// The fault of a certificate: the path within it, and what is wrong there.
fn certificate_told(fault: CertFault) -> Result<WrongStep, NoMemory>
    ensures { IfOk result (λ wrong. IsCertificateTold fault wrong.path wrong.text) }
{
    match fault {
        CertFault::NoMemory => Err(NoMemory),
        CertFault::Step(path, rule) => Ok(WrongStep {
            path: path_of(path),
            text: ProofText::Step(rule),
        }),
        CertFault::Limit(path, limit) => Ok(WrongStep {
            path: path_of(path),
            text: ProofText::Limit(limit),
        }),
    }
}

// The fault of a certificate in the derivation, at the node of this path.
#[tactic(auto, using(crate::proofs::ToldLaws::body_is_told))]
fn body_told(node: Vec<usize>, fault: CertFault) -> Result<Wrong, NoMemory>
    ensures { (u : CoreUnitTree) (f : ℕ) → TellsWrong u f (entries.Cert node fault) result }
{
    let inner = certificate_told(fault)?;
    Ok(Wrong {
        spot: Spot::BodyCert(path_of(node), inner.path),
        text: inner.text,
    })
}

// The fault of the certificate of the entry's precondition.
#[tactic(auto, using(crate::proofs::ToldLaws::entry_is_told))]
fn precondition_told(fault: CertFault) -> Result<Wrong, NoMemory>
    ensures { (u : CoreUnitTree) (f : ℕ) → TellsWrong u f (entries.Entry fault) result }
{
    let inner = certificate_told(fault)?;
    Ok(Wrong {
        spot: Spot::Entry(inner.path),
        text: inner.text,
    })
}

#[tactic(auto, using(crate::proofs::ToldLaws::shape_is_told))]
fn shape_told(path: Vec<usize>) -> Wrong
    ensures { (u : CoreUnitTree) (f : ℕ) → IsWrong u f (entries.Shape path) result }
{
    Wrong {
        spot: Spot::Body(path_of(path)),
        text: ProofText::Shape,
    }
}

fn fault_told(alloc: Global, unit: &CoreUnit, f: FnId, fault: DerivFault) -> Result<Wrong, NoMemory>
    requires known { f.0 < length unit.now.functions.items }
    requires met { IsMet fault }
    ensures { TellsWrong (unit_tree unit.now) f.0 fault result }
{
    match fault {
        DerivFault::NoMemory => Err(NoMemory),
        DerivFault::Shape(path) => Ok(shape_told(path)),
        DerivFault::Mentions(place, callee, x) => mention_told(alloc, unit, f, place, callee, x),
        DerivFault::Cert(path, fault) => body_told(path, fault),
        DerivFault::NoSpec(_, _) => unreachable!(),
        DerivFault::Entry(fault) => precondition_told(fault),
        DerivFault::BadOrder(_) => unreachable!(),
    }
}

#[tactic(auto, using(crate::proofs::ToldLaws::named_is_told))]
fn named(alloc: Global, unit: &CoreUnit, f: FnId, fault: DerivFault) -> Result<ProofFault, NoMemory>
    requires known { f.0 < length unit.now.functions.items }
    requires met { IsMet fault }
    ensures { IfOk result (IsEntryTold (unit_tree unit.now) f.0 fault) }
{
    let name = name_of(alloc, unit, f)?;
    let wrong = fault_told(alloc, unit, f, fault)?;
    Ok(ProofFault::Entry(name, wrong.spot, wrong.text))
}

/// The status of a proof file whose entry of this function has this fault.
#[tactic(auto, using(crate::proofs::ToldLaws::entry_told))]
pub fn entry_told(alloc: Global, unit: &CoreUnit, f: FnId, fault: DerivFault) -> Status
    requires known { f.0 < length unit.now.functions.items }
    requires met { IsMet fault }
    ensures { TellsOfAnyFile (unit_tree unit.now) (faults.Entry f fault) result }
{
    match named(alloc, unit, f, fault) {
        Ok(fault) => Status::Proof(fault),
        Err(_) => Status::NoMemory,
    }
}
