// The certification of a unit's proofs.
ghost use Rattle.std.specs.Prelude.{◌≡◌, IfErr, IfOk, OnOk, Some};
ghost use Rattle.qs_assert.specs.Order as order;
ghost use Rattle.qs_assert.specs.Order.{IsInOrder};
ghost use Rattle.qs_core.specs.UnitTrees.{unit_tree};
ghost use Rattle.qs_triples.specs.TreeOf.{proofs_tree};
ghost use Rattle.qs_analyse.specs.Fillable.{IfProofs, IsFillable};
ghost use Rattle.qs_certify.specs.Given.{IsShort, text_of};
ghost use Rattle.qs_certify.specs.Certification.{AreAll, AreRightIn, AreWrongIn, CannotCertify};
ghost use Rattle.qs_certify.specs.Certification.{CannotComplete, Certifies, IsCompleted};
ghost use Rattle.qs_certify.specs.Certification.{IsCycleFault, IsOrderFault, ToldOfFunctions};

use crate::entries::{check_entries, functions_of};
use crate::fault::CertifyFault;
use crate::given::given_proofs;
use qs_analyse::fill;
use qs_assert::{Define, order_fault};
use qs_base::FnId;
use qs_callgraph::CycleFault;
use qs_core::CoreUnit;
use qs_triples::{Proofs, Resource};
use std::alloc::Global;

/// Proofs that cover a unit.
#[derive(Drop)]
pub struct Certified {
    /// how many entries the proof file has
    pub given: usize,
    /// how many were added
    pub added: usize,
    /// the definitions and entries of the file, and those that were added
    pub proofs: Proofs,
}

// ---- checks

#[tactic(auto, using(crate::proofs::OrderLaws::misplaced_definition))]
fn misplaced(alloc: Global, defines: &[Define], at: usize) -> CertifyFault
    requires { order.order_fault defines.now ≡ Some at }
    ensures { IsOrderFault defines.now result }
{
    match defines[at].name.copy(alloc) {
        Ok(name) => CertifyFault::Order(name),
        Err(_) => CertifyFault::NoMemory,
    }
}

fn check_order(alloc: Global, defines: &[Define]) -> Result<(), CertifyFault>
    ensures in_order { OnOk result (IsInOrder defines.now) }
    ensures fault { IfErr result (IsOrderFault defines.now) }
{
    match order_fault(defines) {
        None => Ok(()),
        Some(at) => Err(misplaced(alloc, defines, at)),
    }
}

/// Checks the order of the definitions, and then that the entries of these functions are derived for
/// what is bounded. A fault is the first in this order.
#[tactic(auto, using(crate::proofs::CauseLaws::wrong_entries))]
pub fn check_proofs(
    alloc: Global,
    unit: &CoreUnit,
    resource: Resource,
    proofs: &Proofs,
    functions: &[FnId],
) -> Result<(), CertifyFault>
    ensures right { OnOk result (AreRightIn resource unit.now proofs.now functions.now) }
    ensures wrong { IfErr result (AreWrongIn resource unit.now proofs.now functions.now) }
{
    check_order(alloc, &proofs.defines)?;
    check_entries(alloc, unit, resource, proofs, functions)
}

// ---- what is added

fn filled(alloc: Global, unit: &CoreUnit, given: Proofs) -> Result<Proofs, CertifyFault>
    requires { IsFillable (unit_tree unit.now) (proofs_tree given) }
    ensures all { IfProofs result (AreAll (unit_tree unit.now) (proofs_tree given)) }
    ensures cycle { IfErr result (IsCycleFault (unit_tree unit.now) (proofs_tree given)) }
{
    match fill(alloc, unit, given) {
        Ok(proofs) => Ok(proofs),
        Err(CycleFault::NoMemory) => Err(CertifyFault::NoMemory),
        Err(CycleFault::Cycle(fs)) => Err(CertifyFault::Cycle(fs)),
    }
}

#[tactic(auto, using(crate::proofs::CompletedLaws::completed_proofs))]
fn completed(alloc: Global, unit: &CoreUnit, given: Proofs) -> Result<Certified, CertifyFault>
    requires { IsFillable (unit_tree unit.now) (proofs_tree given) }
    ensures completed { IfOk result (IsCompleted (unit_tree unit.now) (proofs_tree given)) }
    ensures fault { IfErr result (CannotComplete (unit_tree unit.now) (proofs_tree given)) }
{
    let functions = functions_of(alloc, &given.functions)?;
    let proofs = filled(alloc, unit, given)?;
    check_proofs(alloc, unit, Resource::Stack, &proofs, &functions)?;
    Ok(Certified {
        given: functions.len(),
        added: proofs.functions.len() - functions.len(),
        proofs,
    })
}

/// Certifies a unit: reads the proof file, if there is one, adds what it doesn't have, and checks
/// the order of the definitions and the entries of the file. What comes of it covers the unit, so
/// its preconditions bound every run. The file has fewer than 2^31 bytes.
///
/// A fault is the first in the order of search: the text of the file, a cycle of functions without
/// an entry, the order of the definitions, and the first entry of the file that isn't derived.
#[tactic(auto, using(crate::proofs::CauseLaws::first_causes, crate::proofs::MetLaws::met_faults))]
pub fn certify(
    alloc: Global,
    unit: &CoreUnit,
    file: Option<&[u8]>,
) -> Result<Certified, CertifyFault>
    requires { IsShort (text_of file) }
    ensures certified { IfOk result (Certifies (unit_tree unit.now) (text_of file.entry)) }
    ensures fault { IfErr result (CannotCertify (unit_tree unit.now) (text_of file.entry)) }
    ensures told { IfErr result (ToldOfFunctions (unit_tree unit.now)) }
{
    let given = given_proofs(alloc, unit, file)?;
    completed(alloc, unit, given)
}
