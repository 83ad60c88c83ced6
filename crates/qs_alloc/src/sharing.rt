// Whether what is held at once stands apart, and whether each value stands where it may.
ghost use Rattle.std.specs.Prelude.{◌≡◌, map};
ghost use Rattle.std.specs.List.{list_all, slice_get};
ghost use Rattle.qs_tac.specs.Holders as holders;
ghost use Rattle.qs_tac.specs.Places as places;
ghost use Rattle.qs_tac.specs.TreeOf.{instruction_tree};
ghost use Rattle.qs_tac.specs.Uses.{reads};
ghost use Rattle.qs_alloc.specs.Verification as spec;

use crate::certificate::is_written;
use qs_calls::Parameter;
use qs_tac::{Instruction, Place};

// ---- places

fn place_at(at: &[Place], t: u32) -> Place
    ensures { result ≡ spec.place_at at.now t }
{
    match at.get(t as usize) {
        None => Place::Slot(t),
        Some(place) => *place,
    }
}

fn is_same_place(place: Place, other: Place) -> bool
    ensures { result ≡ holders.same_place place other }
{
    match place {
        Place::Slot(k) => match other {
            Place::Slot(l) => k == l,
            Place::Register(_) => false,
        },
        Place::Register(r) => match other {
            Place::Slot(_) => false,
            Place::Register(s) => r == s,
        },
    }
}

/// Whether the register is one of those that a function gives back to its caller.
pub fn is_saved_register(register: u32) -> bool
    ensures { result ≡ holders.is_saved_register register }
{
    register == 8 || register == 9 || (18 <= register && register <= 27)
}

/// Whether values may stand in the register.
pub fn is_for_values(register: u32) -> bool
    ensures { result ≡ places.is_for_values register }
{
    5 <= register && register <= 31 && !(10 <= register && register <= 17)
}

fn is_kept_at(at: &[Place], t: u32) -> bool
    ensures { result ≡ spec.is_kept_at at.now t }
{
    match place_at(at, t) {
        Place::Slot(_) => true,
        Place::Register(r) => is_saved_register(r),
    }
}

/// Whether a call leaves the places of all of these.
pub fn are_kept(at: &[Place], list: &[u32]) -> bool
    ensures { result ≡ list_all (spec.is_kept_at at.now) list.now }
{
    for t in list {
        if !is_kept_at(at, *t) {
            return false;
        }
    }
    true
}

fn may_stand(slots: usize, place: Place) -> bool
    ensures { result ≡ places.may_stand slots place }
{
    match place {
        Place::Slot(k) => (k as usize) < slots,
        Place::Register(r) => is_for_values(r),
    }
}

#[tactic(auto, using(crate::proofs::Acceptance::slots_most))]
fn slots_among(at: &[Place]) -> usize
    ensures { result ≡ places.slots_among at.now }
{
    let mut count = 0;
    for place in at {
        match place {
            Place::Slot(_) => count += 1,
            Place::Register(_) => {}
        }
    }
    count
}

/// Whether each place is a register for values, or a slot with a number below the count of those
/// that stand in slots.
pub fn all_stand(at: &[Place]) -> bool
    ensures { result ≡ spec.all_stand at.now }
{
    let slots = slots_among(at);
    for place in at {
        if !may_stand(slots, *place) {
            return false;
        }
    }
    true
}

// ---- apart

fn is_apart(at: &[Place], t: u32, u: u32) -> bool
    ensures { result ≡ spec.is_apart at.now t u }
{
    t == u || !is_same_place(place_at(at, t), place_at(at, u))
}

fn is_apart_from_all(at: &[Place], t: u32, list: &[u32]) -> bool
    ensures { result ≡ list_all (spec.is_apart at.now t) list.now }
{
    for u in list {
        if !is_apart(at, t, *u) {
            return false;
        }
    }
    true
}

fn are_apart(at: &[Place], list: &[u32]) -> bool
    ensures { result ≡ spec.are_apart at.now list.now }
{
    for t in list {
        if !is_apart_from_all(at, *t, list) {
            return false;
        }
    }
    true
}

/// Whether what is needed after an instruction and what it writes stand apart.
pub fn is_held_apart(at: &[Place], written: Option<u32>, later: &[u32]) -> bool
    ensures { result ≡ spec.is_held_apart at.now written later.now }
{
    match written {
        None => are_apart(at, later),
        Some(x) => is_apart_from_all(at, x, later) && are_apart(at, later),
    }
}

// ---- at the entry

fn is_apart_from_parameter(at: &[Place], t: u32, parameter: Parameter) -> bool
    ensures { result ≡ spec.is_apart_from_parameter at.now t parameter }
{
    match parameter {
        Parameter::Plain(u) => is_apart(at, t, u),
        Parameter::Placed(_, _) => true,
    }
}

fn is_apart_from_parameters(at: &[Place], t: u32, parameters: &[Parameter]) -> bool
    ensures { result ≡ list_all (spec.is_apart_from_parameter at.now t) parameters.now }
{
    for parameter in parameters {
        if !is_apart_from_parameter(at, t, *parameter) {
            return false;
        }
    }
    true
}

fn is_apart_from_reads(at: &[Place], t: u32, i: &Instruction) -> bool
    ensures { result ≡ list_all (spec.is_apart at.now t) (reads (instruction_tree i.now)) }
{
    for k in 0..i.read_limit() {
        if let Some(u) = i.read_at(k) {
            if !is_apart(at, t, u) {
                return false;
            }
        }
    }
    true
}

fn is_apart_from_rest(at: &[Place], t: u32, written: Option<u32>, later: &[u32]) -> bool
    ensures { result ≡ list_all (spec.is_written_or_apart at.now t written) later.now }
{
    for u in later {
        if !is_written(written, *u) && !is_apart(at, t, *u) {
            return false;
        }
    }
    true
}

fn is_apart_from_first(at: &[Place], t: u32, code: &[Instruction], later: &[u32]) -> bool
    ensures { result ≡ spec.is_apart_from_first at.now t (slice_get (map instruction_tree code.now) 0) later.now }
{
    match code.get(0) {
        None => true,
        Some(i) => {
            is_apart_from_reads(at, t, i) && is_apart_from_rest(at, t, i.written(), later)
        }
    }
}

fn is_apart_at_entry(
    parameters: &[Parameter],
    at: &[Place],
    code: &[Instruction],
    later: &[u32],
    t: u32,
) -> bool
    ensures { result ≡ spec.is_apart_at_entry parameters.now at.now (slice_get (map instruction_tree code.now) 0) later.now t }
{
    is_apart_from_parameters(at, t, parameters) && is_apart_from_first(at, t, code, later)
}

fn are_parameters_apart(
    parameters: &[Parameter],
    at: &[Place],
    code: &[Instruction],
    later: &[u32],
) -> bool
    ensures { result ≡ list_all (spec.is_parameter_apart parameters.now at.now (slice_get (map instruction_tree code.now) 0) later.now) parameters.now }
{
    for parameter in parameters {
        if let Parameter::Plain(t) = parameter {
            if !is_apart_at_entry(parameters, at, code, later, *t) {
                return false;
            }
        }
    }
    true
}

fn are_read_apart(
    parameters: &[Parameter],
    at: &[Place],
    code: &[Instruction],
    later: &[u32],
    i: &Instruction,
) -> bool
    ensures { result ≡ list_all (spec.is_apart_at_entry parameters.now at.now (slice_get (map instruction_tree code.now) 0) later.now) (reads (instruction_tree i.now)) }
{
    for k in 0..i.read_limit() {
        if let Some(t) = i.read_at(k) {
            if !is_apart_at_entry(parameters, at, code, later, t) {
                return false;
            }
        }
    }
    true
}

fn are_reads_apart(
    parameters: &[Parameter],
    at: &[Place],
    code: &[Instruction],
    later: &[u32],
) -> bool
    ensures { result ≡ spec.are_reads_apart parameters.now at.now (slice_get (map instruction_tree code.now) 0) later.now }
{
    match code.get(0) {
        None => true,
        Some(i) => are_read_apart(parameters, at, code, later, i),
    }
}

/// Whether the parameters and what is needed before the first instruction stand apart, but for what
/// is needed after it too.
pub fn is_entry_apart(
    parameters: &[Parameter],
    at: &[Place],
    code: &[Instruction],
    later: &[u32],
) -> bool
    ensures { result ≡ spec.is_entry_apart parameters.now at.now (slice_get (map instruction_tree code.now) 0) later.now }
{
    are_parameters_apart(parameters, at, code, later)
        && are_reads_apart(parameters, at, code, later)
}
