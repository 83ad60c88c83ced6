// The entries of a file, one after another.
ghost use Rattle.std.specs.Prelude.{◌≡◌, ◌∷◌, [], IfOk, map};
ghost use Rattle.qs_assert.specs.Order.{IsInOrder};
ghost use Rattle.qs_core.specs.UnitTrees.{unit_tree};
ghost use Rattle.qs_triples.specs.TreeOf.{entry_tree, proofs_tree};
ghost use Rattle.qs_callgraph.specs.CallLists.{numbers};
ghost use Rattle.qs_analyse.specs.Fillable.{entry_functions};
ghost use Rattle.qs_certify.specs.Entries.{TellsEntries, TellsEntriesIn, entry_told};

use crate::fault::CertifyFault;
use qs_assert::Room;
use qs_base::{FnId, NoMemory};
use qs_core::CoreUnit;
use qs_triples::{DerivFault, FunctionProof, Proofs, Resource, check_in_order_for};
use std::alloc::Global;

/// The functions of entries, in order.
pub fn functions_of(alloc: Global, entries: &[FunctionProof]) -> Result<Vec<FnId>, NoMemory>
    ensures { IfOk result (λ fs. numbers fs.items ≡ entry_functions (map entry_tree entries.now)) }
{
    let mut functions = Vec::new(alloc);
    for e in entries {
        functions.push(e.function)?;
    }
    Ok(functions)
}

fn refused(f: FnId, fault: DerivFault) -> CertifyFault
    ensures { result ≡ entry_told f fault }
{
    match fault {
        DerivFault::NoMemory => CertifyFault::NoMemory,
        DerivFault::Shape(path) => CertifyFault::Entry(f, DerivFault::Shape(path)),
        DerivFault::Mentions(place, g, x) => CertifyFault::Entry(
            f,
            DerivFault::Mentions(place, g, x),
        ),
        DerivFault::Cert(path, fault) => CertifyFault::Entry(f, DerivFault::Cert(path, fault)),
        DerivFault::NoSpec(path, g) => CertifyFault::Entry(f, DerivFault::NoSpec(path, g)),
        DerivFault::Entry(fault) => CertifyFault::Entry(f, DerivFault::Entry(fault)),
        DerivFault::BadOrder(at) => CertifyFault::Entry(f, DerivFault::BadOrder(at)),
    }
}

#[tactic(auto, using(crate::proofs::EntryLaws::one_derived, crate::proofs::EntryLaws::one_told))]
fn check_entry(
    alloc: Global,
    room: &mut Room,
    unit: &CoreUnit,
    resource: Resource,
    proofs: &Proofs,
    f: FnId,
) -> Result<(), CertifyFault>
    requires { IsInOrder proofs.now.defines.items }
    ensures { TellsEntries resource (unit_tree unit.now) (proofs_tree proofs.now) (f.0 ∷ []) result }
{
    match check_in_order_for(alloc, room, unit, resource, f, proofs) {
        Ok(()) => Ok(()),
        Err(fault) => Err(refused(f, fault)),
    }
}

/// Checks that the entries of these functions are derived for what is bounded, where the definitions
/// are in order. Otherwise it answers the first of them whose entry isn't, with that entry's first fault.
#[tactic(auto, using(crate::proofs::EntryLaws::goes_on, crate::proofs::EntryLaws::ends_at))]
pub fn check_entries(
    alloc: Global,
    unit: &CoreUnit,
    resource: Resource,
    proofs: &Proofs,
    functions: &[FnId],
) -> Result<(), CertifyFault>
    requires { IsInOrder proofs.now.defines.items }
    ensures { TellsEntriesIn resource unit.now proofs.now functions.now result }
{
    let mut room = Room::to_make();
    for f in functions {
        check_entry(alloc, &mut room, unit, resource, proofs, *f)?;
    }
    Ok(())
}
