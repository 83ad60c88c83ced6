// One temporary after the other moves into a register that is free for it.
ghost use Rattle.std.specs.Prelude.{◌≡◌, ℕ, ◌<◌, ◌^◌, [], ◌∷◌, true, false, length, MatchOption, OnOk};
ghost use Rattle.qs_alloc.specs.declared.rows.Side.TheVariants.{Written};
ghost use Rattle.qs_alloc.specs.Rows.{ListsBelow, RowsOf};
ghost use Rattle.qs_alloc.specs.LiveRanges.{NeededRows};
ghost use Rattle.qs_alloc.specs.Registers as spec;
ghost use Rattle.qs_alloc.specs.Registers.{TakenBy, MarkedBy, IsFree, IsTaken, Filled, Settled, FilledAll};

use crate::points::{crosses, points_of};
use crate::sharing::{is_for_values, is_saved_register};
use qs_base::{NoMemory, count};
use qs_calls::Parameter;
use qs_tac::{Instruction, Place};
use std::alloc::Global;

/// The registers that are held at one of these points.
fn taken_at(points: &[u32], busy: &[u32]) -> u32
    requires { ListsBelow (length busy.now) points.now }
    ensures { TakenBy points.now busy.now result }
{
    let mut taken = 0;
    for p in points {
        taken |= busy[*p as usize];
    }
    taken
}

fn mark_one(p: u32, r: u32, busy: &mut [u32])
    requires here { p < length busy.old }
    requires register { r < 32 }
    ensures { MarkedBy (p ∷ []) r busy.old busy.new }
{
    busy[p as usize] |= 1 << r;
}

/// The register is held at these points.
fn mark(points: &[u32], r: u32, busy: &mut [u32])
    requires here { ListsBelow (length busy.old) points.now }
    requires register { r < 32 }
    ensures { MarkedBy points.now r busy.old busy.new }
{
    for p in points {
        mark_one(*p, r, busy);
    }
}

fn may_stand(r: u32, crosses: bool) -> bool
    ensures { result ≡ spec.may_stand r crosses }
{
    is_for_values(r) && (!crosses || is_saved_register(r))
}

fn is_free(r: u32, crosses: bool, taken: u32) -> bool
    requires { r < 32 }
    ensures free { result ≡ true → IsFree r crosses taken }
    ensures taken { result ≡ false → IsTaken r crosses taken }
{
    may_stand(r, crosses) && (taken >> r) & 1 == 0
}

/// A free register, one that calls may change where there is one: it costs the frame nothing.
fn choose(crosses: bool, taken: u32) -> Option<u32>
    ensures { MatchOption result ((r : ℕ) → IsTaken r crosses taken) (λ r. IsFree r crosses taken) }
{
    for r in 0..32 {
        if !is_saved_register(r) && is_free(r, crosses, taken) {
            return Some(r);
        }
    }
    for r in 0..32 {
        if is_free(r, crosses, taken) {
            return Some(r);
        }
    }
    None
}

fn is_slot(place: Place) -> bool
    ensures slot { result ≡ true → (r : ℕ) → ¬ (place ≡ Place.Register r) }
    ensures register { result ≡ false → (k : ℕ) → ¬ (place ≡ Place.Slot k) }
{
    match place {
        Place::Slot(_) => true,
        Place::Register(_) => false,
    }
}

/// Moves t into a register that is free for it, if there is one.
fn settle(
    alloc: Global,
    parameters: &[Parameter],
    code: &[Instruction],
    rows: &[Vec<u32>],
    writers: &[Vec<u32>],
    t: u32,
    at: &mut [Place],
    busy: &mut [u32],
) -> Result<(), NoMemory>
    requires room { length code.now < 2 ^ 32 }
    requires rows { NeededRows code.now (length at.old) rows.now }
    requires writers { RowsOf Written code.now (length at.old) writers.now }
    requires here { t < length at.old }
    requires filled { Filled parameters.now code.now rows.now at.old busy.old }
    ensures { OnOk result (Settled parameters.now code.now rows.now t at.old at.new busy.new) }
{
    if !is_slot(at[t as usize]) {
        return Ok(());
    }
    let live = &rows[t as usize];
    let points = points_of(alloc, parameters, code, t, live, &writers[t as usize])?;
    match choose(crosses(code, live), taken_at(&points, busy)) {
        Some(r) => {
            at[t as usize] = Place::Register(r);
            mark(&points, r, busy);
            return Ok(());
        }
        None => return Ok(()),
    }
}

/// Moves the temporaries into registers, the last one first: those of parts of expressions, which
/// have short lives.
pub fn fill(
    alloc: Global,
    parameters: &[Parameter],
    code: &[Instruction],
    rows: &[Vec<u32>],
    writers: &[Vec<u32>],
    at: &mut [Place],
    busy: &mut [u32],
) -> Result<(), NoMemory>
    requires room { length code.now < 2 ^ 32 }
    requires rows { NeededRows code.now (length at.old) rows.now }
    requires writers { RowsOf Written code.now (length at.old) writers.now }
    requires filled { Filled parameters.now code.now rows.now at.old busy.old }
    ensures { OnOk result (FilledAll parameters.now code.now rows.now at.old at.new busy.new) }
{
    let mut left = count(at.len())?;
    while left > 0 {
        settle(alloc, parameters, code, rows, writers, left - 1, at, busy)?;
        left -= 1;
    }
    Ok(())
}
