// The proofs of a file that count the calls of a unit.
ghost use Rattle.std.specs.Prelude.{◌≡◌, ◌<◌, ◌^◌, length, Some};
ghost use Rattle.qs_core.specs.UnitTrees.{unit_tree};
ghost use Rattle.qs_triples.specs.TreeOf.{proofs_tree};
ghost use Rattle.qs_analyse.specs.Fillable.{IsFillable};
ghost use Rattle.qs_count.specs.Covered.{IsCovered};
ghost use Rattle.qs_driver_calls.specs.Answers.{CountsEntries, CountsGiven, CountsProofs};
ghost use Rattle.qs_driver_calls.specs.Answers.{IsEntryWanted};

use qs_base::FnId;
use qs_certify::given_proofs;
use qs_core::{CoreUnit, name_of};
use qs_count::{check_entries, covered};
use qs_driver_proofs::proofs_told;
use qs_driver_session::{ProofFault, Status};
use qs_triples::Proofs;
use std::alloc::Global;

// The status where this function needs an entry and has none.
fn entry_wanted(alloc: Global, unit: &CoreUnit, f: FnId) -> Status
    requires { f.0 < length unit.now.functions.items }
    ensures { IsEntryWanted (unit_tree unit.now) f.0 result }
{
    match name_of(alloc, unit, f) {
        Ok(name) => Status::Proof(ProofFault::NoEntry(name)),
        Err(_) => Status::NoMemory,
    }
}

// These proofs, where no function is missing, if their entries count calls.
fn counted_entries(
    alloc: Global,
    unit: &CoreUnit,
    text: &[u8],
    given: Proofs,
) -> Result<Proofs, Status>
    requires short { length text.now < 2 ^ 31 }
    requires fillable { IsFillable (unit_tree unit.now) (proofs_tree given) }
    requires covered { IsCovered (unit_tree unit.now) (proofs_tree given) }
    ensures { CountsEntries (unit_tree unit.now) (proofs_tree given) result }
{
    match check_entries(alloc, unit, &given) {
        Ok(()) => Ok(given),
        Err(fault) => Err(proofs_told(alloc, unit, Some(text), fault)),
    }
}

// These proofs, if no function is missing and their entries count calls.
fn counted_given(
    alloc: Global,
    unit: &CoreUnit,
    text: &[u8],
    given: Proofs,
) -> Result<Proofs, Status>
    requires short { length text.now < 2 ^ 31 }
    requires fillable { IsFillable (unit_tree unit.now) (proofs_tree given) }
    ensures { CountsGiven (unit_tree unit.now) (proofs_tree given) result }
{
    match covered(unit, &given) {
        None => counted_entries(alloc, unit, text, given),
        Some(f) => Err(entry_wanted(alloc, unit, f)),
    }
}

/// The proofs of a file by which the calls of a unit are counted. Or the status at which they are
/// refused: its text first, then a function that needs an entry and has none, then the order of its
/// definitions and its entries.
pub fn counted_proofs(alloc: Global, unit: &CoreUnit, text: &[u8]) -> Result<Proofs, Status>
    requires { length text.now < 2 ^ 31 }
    ensures { CountsProofs (unit_tree unit.now) text.now result }
{
    match given_proofs(alloc, unit, Some(text)) {
        Ok(given) => counted_given(alloc, unit, text, given),
        Err(fault) => Err(proofs_told(alloc, unit, Some(text), fault)),
    }
}
