// Whether places keep what functions do. No call takes memory.
ghost use Rattle.std.specs.Prelude.{◌≡◌, ◌↔◌, ◌<◌, IsTrue, length, map};
ghost use Rattle.qs_tac.specs.Laws.{AreAccepted};
ghost use Rattle.qs_tac.specs.Places.{Accepted, lists, places_tree, places_trees};
ghost use Rattle.qs_tac.specs.TreeOf.{function_tree, function_trees, instruction_tree};
ghost use Rattle.qs_tac.specs.UnitTrees.{unit_tree};
ghost use Rattle.qs_alloc.specs.Verification as spec;

use crate::certificate::{flows_on, list_at};
use crate::sharing::{all_stand, are_kept, is_entry_apart, is_held_apart};
use qs_tac::{Instruction, Place, Places, TacFunction, TacUnit};

fn is_slot(place: Place, slot: usize) -> bool
    ensures { result ≡ spec.is_slot place slot }
{
    match place {
        Place::Slot(k) => k as usize == slot,
        Place::Register(_) => false,
    }
}

fn are_in_order(places: &[Place]) -> bool
    ensures { result ≡ spec.are_in_order 0 places.now }
{
    for (slot, place) in places.iter().enumerate() {
        if !is_slot(*place, slot) {
            return false;
        }
    }
    true
}

fn are_own_slots(places: &[Place], count: u32) -> bool
    ensures { result ≡ spec.are_own_slots places.now count }
{
    places.len() == count as usize && are_in_order(places)
}

fn keeps_at(
    code: &[Instruction],
    at: &[Place],
    needed: &[Vec<u32>],
    index: usize,
    i: &Instruction,
) -> bool
    requires { index < length code.now }
    ensures { result ≡ spec.keeps_at (map instruction_tree code.now) at.now (lists needed.now) index (instruction_tree i.now) }
{
    let later = list_at(needed, index);
    if i.is_call() && !are_kept(at, later) {
        return false;
    }
    flows_on(code, needed, index, i) && is_held_apart(at, i.written(), later)
}

fn all_keep(code: &[Instruction], at: &[Place], needed: &[Vec<u32>]) -> bool
    ensures { result ≡ spec.keeps_from (map instruction_tree code.now) at.now (lists needed.now) 0 (map instruction_tree code.now) }
{
    for (index, i) in code.iter().enumerate() {
        if !keeps_at(code, at, needed, index, i) {
            return false;
        }
    }
    true
}

fn keeps_values(f: &TacFunction, places: &Places) -> bool
    ensures { result ≡ spec.keeps_values (function_tree f.now) (places_tree places.now) }
{
    if places.at.len() != f.temporaries as usize || places.needed.len() != f.code.len() {
        return false;
    }
    is_entry_apart(
        &f.parameters,
        &places.at,
        &f.code,
        list_at(&places.needed, 0),
    ) && all_keep(&f.code, &places.at, &places.needed)
        && all_stand(&places.at)
}

fn is_accepted(f: &TacFunction, places: &Places) -> bool
    ensures { result ≡ spec.is_accepted (function_tree f.now) (places_tree places.now) }
{
    are_own_slots(&places.at, f.temporaries) || keeps_values(f, places)
}

/// Whether the places keep what the function does: exactly where each temporary has a slot of its
/// own, or where the certificate is closed, what is held at once stands apart, calls leave what is
/// needed after them, and each temporary stands in a register for values or in a slot with a number
/// below the count of those that stand in slots.
pub fn verify(f: &TacFunction, places: &Places) -> bool
    ensures { IsTrue result ↔ Accepted (function_tree f.now) (places_tree places.now) }
{
    is_accepted(f, places)
}

fn is_verified(f: &TacFunction, places: &[Places], number: usize) -> bool
    ensures { result ≡ spec.is_verified (places_trees places.now) number (function_tree f.now) }
{
    match places.get(number) {
        None => are_own_slots(&[], f.temporaries),
        Some(places) => is_accepted(f, places),
    }
}

fn are_verified(functions: &[TacFunction], places: &[Places]) -> bool
    ensures { result ≡ spec.are_verified (places_trees places.now) 0 (function_trees functions.now) }
{
    for (number, f) in functions.iter().enumerate() {
        if !is_verified(f, places, number) {
            return false;
        }
    }
    true
}

/// Whether the places of each function keep what it does; a function's places stand by its number.
#[tactic(auto, using(crate::proofs::UnitLaws::verified_keep))]
pub fn verify_unit(unit: &TacUnit, places: &[Places]) -> bool
    ensures accepted { IsTrue result ↔ AreAccepted (unit_tree unit.now) (places_trees places.now) }
    ensures keeps { IsTrue result → spec.KeepsRuns (unit_tree unit.now) (places_trees places.now) }
{
    are_verified(&unit.functions, places)
}
