// The checks of entries for a bound on the number of calls.
ghost use Rattle.std.specs.Prelude.{IfErr, OnOk};
ghost use Rattle.qs_core.specs.UnitTrees.{unit_tree};
ghost use Rattle.qs_triples.specs.Told.{Tells};
ghost use Rattle.qs_triples.specs.TreeOf.{proofs_tree};
ghost use Rattle.qs_analyse.specs.Fillable.{IsFillable};
ghost use Rattle.qs_certify.specs.Certification.{ToldOfFunctions};
ghost use Rattle.qs_count.specs.Counted.{AreAllCountedIn, AreNotCountedIn, FirstEntryIsCounted};
ghost use Rattle.qs_count.specs.Counted.{first_count_fault};
ghost use Rattle.qs_count.specs.Covered.{IsCovered};

use qs_assert::Room;
use qs_base::FnId;
use qs_certify::{CertifyFault, check_proofs, functions_of};
use qs_core::CoreUnit;
use qs_triples::{DerivFault, Proofs, Resource, check_function_for};
use std::alloc::Global;

/// Checks that the first entry of a function is derived where calls are counted.
///
/// Otherwise it answers the first fault in the order of search: the definitions, what the
/// precondition and then the postcondition mention, the body, the precondition's certificate. No
/// call is balanced: a `BalancedCall` is of no form, and `Shape`. For a number that is no function
/// of the unit, and a function without an entry, it answers `Shape` at the body.
pub fn check_function(
    alloc: Global,
    unit: &CoreUnit,
    f: FnId,
    proofs: &Proofs,
) -> Result<(), DerivFault>
    ensures exact { Tells result (first_count_fault unit.now f.0 proofs.now) }
    ensures derived { OnOk result (FirstEntryIsCounted unit.now f.0 proofs.now) }
{
    let mut room = Room::to_make();
    check_function_for(alloc, &mut room, unit, Resource::Calls, f, proofs)
}

/// Checks that the definitions are in order, and then that each entry is derived where calls are
/// counted, where no function is missing. A fault is the first in this order, of entries in that of
/// the file, each as `check_function` tells it.
#[tactic(auto, using(crate::proofs::CheckLaws::checked_entries))]
pub fn check_entries(alloc: Global, unit: &CoreUnit, proofs: &Proofs) -> Result<(), CertifyFault>
    requires fillable { IsFillable (unit_tree unit.now) (proofs_tree proofs.now) }
    requires covered { IsCovered (unit_tree unit.now) (proofs_tree proofs.now) }
    ensures counted { OnOk result (AreAllCountedIn unit.now proofs.now) }
    ensures wrong { IfErr result (AreNotCountedIn unit.now proofs.now) }
    ensures told { IfErr result (ToldOfFunctions (unit_tree unit.now)) }
{
    let functions = functions_of(alloc, &proofs.functions)?;
    check_proofs(alloc, unit, Resource::Calls, proofs, &functions)
}
