// Where temporaries are needed: the least certificate, one temporary after the other.

ghost use Rattle.std.specs.Prelude.{◌≡◌, ℕ, ◌+◌, ◌<◌, ◌^◌, [], ◌∷◌, length, IfOk, OnOk};
ghost use Rattle.qs_alloc.specs.declared.rows.Side.TheVariants.{Next, Read};
ghost use Rattle.qs_alloc.specs.Rows.{ListsBelow, RowsOf};
ghost use Rattle.qs_alloc.specs.LiveRanges.{AllBelowStamp, Sees, Reached, ReachedBefore, Passed, Lists, Started, Spread, LiveAfter, NeededRows};

use crate::certificate::is_written;
use crate::rows::{Side, rows_of};
use qs_base::{NoMemory, count};
use qs_tac::Instruction;
use std::alloc::Global;

/// Lists p unless it is there.
fn reach_one(p: u32, seen: &mut [u32], stamp: u32, live: &mut Vec<u32>) -> Result<(), NoMemory>
    requires here { p < length seen.old }
    requires sees { Sees stamp seen.old live.old.items }
    ensures { OnOk result (Reached stamp (p ∷ []) seen.old seen.new live.old.items live.new.items) }
{
    if seen[p as usize] != stamp {
        seen[p as usize] = stamp;
        live.push(p)?;
    }
    Ok(())
}

/// Lists each of these unless it is there.
fn reach(from: &[u32], seen: &mut [u32], stamp: u32, live: &mut Vec<u32>) -> Result<(), NoMemory>
    requires here { ListsBelow (length seen.old) from.now }
    requires sees { Sees stamp seen.old live.old.items }
    ensures { OnOk result (Reached stamp from.now seen.old seen.new live.old.items live.new.items) }
{
    for p in from {
        reach_one(*p, seen, stamp, live)?;
    }
    Ok(())
}

/// Lists what leads to q.
fn reach_before(
    code: &[Instruction],
    q: usize,
    before: &[Vec<u32>],
    seen: &mut [u32],
    stamp: u32,
    live: &mut Vec<u32>,
) -> Result<(), NoMemory>
    requires here { q < length code.now }
    requires size { length seen.old ≡ length code.now }
    requires before { RowsOf Next code.now (length code.now) before.now }
    requires sees { Sees stamp seen.old live.old.items }
    ensures { OnOk result (ReachedBefore code.now q stamp seen.new live.old.items live.new.items) }
{
    reach(&before[q], seen, stamp, live)?;
    Ok(())
}

/// Lists what leads to an instruction that reads t.
fn start(
    code: &[Instruction],
    t: u32,
    before: &[Vec<u32>],
    readers: &[u32],
    seen: &mut [u32],
    stamp: u32,
    live: &mut Vec<u32>,
) -> Result<(), NoMemory>
    requires size { length seen.old ≡ length code.now }
    requires before { RowsOf Next code.now (length code.now) before.now }
    requires readers { Lists Read code.now t readers.now }
    requires sees { Sees stamp seen.old live.old.items }
    requires none { length live.old.items ≡ 0 }
    ensures { OnOk result (Started code.now t stamp seen.new live.new.items) }
{
    for q in readers {
        reach_before(code, *q as usize, before, seen, stamp, live)?;
    }
    Ok(())
}

/// Lists what leads to q, unless q writes t.
fn pass(
    code: &[Instruction],
    t: u32,
    q: usize,
    before: &[Vec<u32>],
    seen: &mut [u32],
    stamp: u32,
    live: &mut Vec<u32>,
) -> Result<(), NoMemory>
    requires here { q < length code.now }
    requires size { length seen.old ≡ length code.now }
    requires before { RowsOf Next code.now (length code.now) before.now }
    requires sees { Sees stamp seen.old live.old.items }
    ensures { OnOk result (Passed code.now t q stamp seen.new live.old.items live.new.items) }
{
    if !is_written(code[q].written(), t) {
        reach_before(code, q, before, seen, stamp, live)?;
    }
    Ok(())
}

/// Lists what leads to a listed instruction that doesn't write t.
fn spread(
    code: &[Instruction],
    t: u32,
    before: &[Vec<u32>],
    seen: &mut [u32],
    stamp: u32,
    live: &mut Vec<u32>,
) -> Result<(), NoMemory>
    requires before { RowsOf Next code.now (length code.now) before.now }
    requires started { Started code.now t stamp seen.old live.old.items }
    ensures { OnOk result (Spread code.now t stamp seen.new live.new.items) }
{
    let mut next = 0;
    while next < live.len() {
        pass(code, t, live[next] as usize, before, seen, stamp, live)?;
        next += 1;
    }
    Ok(())
}

/// The instructions after which t is needed.
fn needed_after(
    alloc: Global,
    code: &[Instruction],
    t: u32,
    before: &[Vec<u32>],
    readers: &[u32],
    seen: &mut [u32],
    stamp: u32,
) -> Result<Vec<u32>, NoMemory>
    requires size { length seen.old ≡ length code.now }
    requires before { RowsOf Next code.now (length code.now) before.now }
    requires readers { Lists Read code.now t readers.now }
    requires fresh { AllBelowStamp stamp seen.old }
    ensures live { IfOk result (λ live. LiveAfter code.now t live.items) }
    ensures size { length seen.new ≡ length code.now }
    ensures stamps { OnOk result (AllBelowStamp (stamp + 1) seen.new) }
{
    let mut live = Vec::new(alloc);
    start(code, t, before, readers, seen, stamp, &mut live)?;
    spread(code, t, before, seen, stamp, &mut live)?;
    Ok(live)
}

/// For each temporary, the instructions after which it is needed; a temporary without a row is
/// needed nowhere.
pub fn needed_rows(
    alloc: Global,
    code: &[Instruction],
    temporaries: u32,
) -> Result<Vec<Vec<u32>>, NoMemory>
    requires room { length code.now < 2 ^ 32 }
    ensures { IfOk result (λ rows. NeededRows code.now temporaries rows.items) }
{
    let before = rows_of(alloc, Side::Next, code, code.len())?;
    let readers = rows_of(alloc, Side::Read, code, temporaries as usize)?;
    let mut stamps = vec![in alloc; 0_u32; code.len()]?;
    let seen = stamps.as_mut_slice();
    let mut rows = Vec::new(alloc);
    for t in 0..count(readers.len())? {
        rows.push(needed_after(alloc, code, t, &before, &readers[t as usize], seen, t + 1)?)?;
    }
    Ok(rows)
}
