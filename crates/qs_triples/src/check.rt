// The checks of definitions and of functions.
ghost use Rattle.std.specs.List.{slice_get};
ghost use Rattle.std.specs.Prelude.{◌≡◌, OnOk};
ghost use Rattle.qs_assert.specs.Order as order;
ghost use Rattle.qs_assert.specs.Order.{IsInOrder};
ghost use Rattle.qs_core.specs.TreeOf.{function_tree};
ghost use Rattle.qs_core.specs.UnitTrees.{unit_tree};
ghost use Rattle.qs_triples.specs.Checking.{FirstEntryIsDerived, first_entry_fault};
ghost use Rattle.qs_triples.specs.Checking.{FirstEntryIsDerivedFor, first_entry_fault_for};
ghost use Rattle.qs_triples.specs.Checking.{found_entry_fault, known_entry_fault};
ghost use Rattle.qs_triples.specs.Told.{Tells, TellsOrder};
ghost use Rattle.qs_triples.specs.Views.{Finds};

use crate::calls::entry_in;
use crate::derivation::{FunctionProof, Proofs};
use crate::entry::check_entry;
use crate::fault::DerivFault;
use crate::posts::Scope;
use crate::resource::Resource;
use qs_assert::{Room, order_fault};
use qs_base::FnId;
use qs_core::{CoreFunction, CoreUnit};
use std::alloc::Global;

/// Checks that each definition mentions only names that are defined earlier. `BadOrder` is the
/// first that doesn't; no other fault comes, since this takes no memory.
pub fn defines_in_order(proofs: &Proofs) -> Result<(), DerivFault>
    ensures { TellsOrder result (order.order_fault proofs.now.defines.items) }
{
    match order_fault(&proofs.defines) {
        None => Ok(()),
        Some(d) => Err(DerivFault::BadOrder(d)),
    }
}

// The entry of this function, where this is the first definition out of order, if there is one.
#[tactic(auto, using(crate::proofs::EntryLaws::known_order))]
fn check_known(
    alloc: Global,
    room: &mut Room,
    unit: &CoreUnit,
    resource: Resource,
    function: &CoreFunction,
    proofs: &Proofs,
    e: &FunctionProof,
    misplaced: Option<usize>,
) -> Result<(), DerivFault>
    requires { misplaced ≡ order.order_fault proofs.now.defines.items }
    ensures { Tells result (known_entry_fault resource unit.now function.now proofs.now e.now) }
{
    let scope = Scope {
        resource,
        function,
        functions: &unit.functions,
        entries: &proofs.functions,
        defines: &proofs.defines,
    };
    match misplaced {
        None => check_entry(alloc, room, scope, e),
        Some(first) => Err(DerivFault::BadOrder(first)),
    }
}

/// The function with this number.
pub fn function_of(unit: &CoreUnit, f: FnId) -> Option<&CoreFunction>
    ensures { Finds result function_tree (slice_get (unit_tree unit.now).functions f.0) }
{
    unit.functions.get(f.0 as usize)
}

fn check_found(
    alloc: Global,
    room: &mut Room,
    unit: &CoreUnit,
    resource: Resource,
    proofs: &Proofs,
    e: &FunctionProof,
    misplaced: Option<usize>,
) -> Result<(), DerivFault>
    requires { misplaced ≡ order.order_fault proofs.now.defines.items }
    ensures { Tells result (found_entry_fault resource unit.now proofs.now e.now) }
{
    match function_of(unit, e.function) {
        Some(function) => check_known(alloc, room, unit, resource, function, proofs, e, misplaced),
        None => Err(DerivFault::Shape(Vec::new(alloc))),
    }
}

// The first entry of a function, where this is the first definition out of order, if there is one.
fn check_first(
    alloc: Global,
    room: &mut Room,
    unit: &CoreUnit,
    resource: Resource,
    f: FnId,
    proofs: &Proofs,
    misplaced: Option<usize>,
) -> Result<(), DerivFault>
    requires { misplaced ≡ order.order_fault proofs.now.defines.items }
    ensures { Tells result (first_entry_fault_for resource unit.now f.0 proofs.now) }
{
    match entry_in(&proofs.functions, f) {
        Some(e) => check_found(alloc, room, unit, resource, proofs, e, misplaced),
        None => Err(DerivFault::Shape(Vec::new(alloc))),
    }
}

/// Checks that the first entry of a function is derived for what is bounded, and answers as
/// `check_function` does.
#[tactic(auto, using(crate::proofs::EntryLaws::tells_derived))]
pub fn check_function_for(
    alloc: Global,
    room: &mut Room,
    unit: &CoreUnit,
    resource: Resource,
    f: FnId,
    proofs: &Proofs,
) -> Result<(), DerivFault>
    ensures exact { Tells result (first_entry_fault_for resource unit.now f.0 proofs.now) }
    ensures derived { OnOk result (FirstEntryIsDerivedFor resource unit.now f.0 proofs.now) }
{
    check_first(
        alloc,
        room,
        unit,
        resource,
        f,
        proofs,
        order_fault(&proofs.defines),
    )
}

/// Checks that the first entry of a function is derived, for the stack.
///
/// Otherwise it answers the first fault in the order of search: the
/// definitions, what the precondition and then the postcondition mention, the
/// body, the precondition's certificate. For a number that is no function of
/// the unit, and a function without an entry, it answers `Shape` at the body.
#[tactic(auto, using(crate::proofs::EntryLaws::tells_derived))]
pub fn check_function(
    alloc: Global,
    room: &mut Room,
    unit: &CoreUnit,
    f: FnId,
    proofs: &Proofs,
) -> Result<(), DerivFault>
    ensures exact { Tells result (first_entry_fault unit.now f.0 proofs.now) }
    ensures derived { OnOk result (FirstEntryIsDerived unit.now f.0 proofs.now) }
{
    check_function_for(alloc, room, unit, Resource::Stack, f, proofs)
}

/// Checks that the first entry of a function is derived for what is bounded, where it is known that
/// the definitions are in order: for many functions they are gone through once.
#[tactic(auto, using(crate::proofs::EntryLaws::tells_derived))]
pub fn check_in_order_for(
    alloc: Global,
    room: &mut Room,
    unit: &CoreUnit,
    resource: Resource,
    f: FnId,
    proofs: &Proofs,
) -> Result<(), DerivFault>
    requires { IsInOrder proofs.now.defines.items }
    ensures exact { Tells result (first_entry_fault_for resource unit.now f.0 proofs.now) }
    ensures derived { OnOk result (FirstEntryIsDerivedFor resource unit.now f.0 proofs.now) }
{
    check_first(alloc, room, unit, resource, f, proofs, None)
}

/// Checks that the first entry of a function is derived, as `check_function` does, where it is
/// known that the definitions are in order.
#[tactic(auto, using(crate::proofs::EntryLaws::tells_derived))]
pub fn check_in_order(
    alloc: Global,
    room: &mut Room,
    unit: &CoreUnit,
    f: FnId,
    proofs: &Proofs,
) -> Result<(), DerivFault>
    requires { IsInOrder proofs.now.defines.items }
    ensures exact { Tells result (first_entry_fault unit.now f.0 proofs.now) }
    ensures derived { OnOk result (FirstEntryIsDerived unit.now f.0 proofs.now) }
{
    check_in_order_for(alloc, room, unit, Resource::Stack, f, proofs)
}
