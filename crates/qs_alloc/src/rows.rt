// Rows of instructions: those that can come before an instruction, that read a temporary, or that
// write it.
ghost use Rattle.std.specs.Prelude.{◌≡◌, ◌+◌, ◌<◌, ◌^◌, [], ◌∷◌, if◌then◌else◌, length, option_to_list, IfOk, OnOk};
ghost use Rattle.qs_tac.specs.Liveness.{goes_on};
ghost use Rattle.qs_tac.specs.TreeOf.{instruction_tree};
ghost use Rattle.qs_tac.specs.Uses.{reads};
ghost use Rattle.qs_alloc.specs.declared.rows.Side.TheVariants.{Next};
ghost use Rattle.qs_alloc.specs.Rows.{keys_of, Grown, Noted, NotedAll, RowsOf};

use qs_base::NoMemory;
use qs_tac::Instruction;
use std::alloc::Global;

/// What an instruction names: what can come next, or temporaries.
#[derive(Clone, Copy)]
pub enum Side {
    /// the instructions that can come next, by their indices
    Next,
    /// the temporaries that it reads
    Read,
    /// the temporary that it writes
    Written,
}

/// Empty rows behind the others, up to so many.
pub fn grow(alloc: Global, rows: &mut Vec<Vec<u32>>, count: usize) -> Result<(), NoMemory>
    ensures { OnOk result (Grown count rows.old.items rows.new.items) }
{
    while rows.len() < count {
        rows.push(Vec::new(alloc))?;
    }
    Ok(())
}

/// Puts a number at the end of a row.
pub fn note(
    alloc: Global,
    rows: &mut Vec<Vec<u32>>,
    key: usize,
    number: u32,
) -> Result<(), NoMemory>
    requires { key + 1 < 2 ^ 64 }
    ensures { OnOk result (Noted key number rows.old.items rows.new.items) }
{
    grow(alloc, rows, key + 1)?;
    rows[key].push(number)?;
    Ok(())
}

fn note_some(
    alloc: Global,
    rows: &mut Vec<Vec<u32>>,
    key: Option<u32>,
    number: u32,
) -> Result<(), NoMemory>
    ensures { OnOk result (NotedAll (option_to_list key) number rows.old.items rows.new.items) }
{
    match key {
        None => {}
        Some(k) => {
            note(alloc, rows, k as usize, number)?;
        }
    }
    Ok(())
}

fn note_reads(
    alloc: Global,
    rows: &mut Vec<Vec<u32>>,
    i: &Instruction,
    number: u32,
) -> Result<(), NoMemory>
    ensures { OnOk result (NotedAll (reads (instruction_tree i.now)) number rows.old.items rows.new.items) }
{
    for k in 0..i.read_limit() {
        note_some(alloc, rows, i.read_at(k), number)?;
    }
    Ok(())
}

// the instruction behind this one, where it can come next
fn behind(i: &Instruction, index: u32) -> Option<u32>
    requires { index + 1 < 2 ^ 32 }
    ensures { option_to_list result ≡ (if goes_on (instruction_tree i.now) then (index + 1) ∷ [] else []) }
{
    if i.goes_on() { Some(index + 1) } else { None }
}

fn note_nexts(
    alloc: Global,
    rows: &mut Vec<Vec<u32>>,
    i: &Instruction,
    index: u32,
) -> Result<(), NoMemory>
    requires { index + 1 < 2 ^ 32 }
    ensures { OnOk result (NotedAll (keys_of Next index i.now) index rows.old.items rows.new.items) }
{
    note_some(alloc, rows, behind(i, index), index)?;
    note_some(alloc, rows, i.target(), index)?;
    Ok(())
}

fn note_keys(
    alloc: Global,
    rows: &mut Vec<Vec<u32>>,
    side: Side,
    i: &Instruction,
    index: u32,
) -> Result<(), NoMemory>
    requires { index + 1 < 2 ^ 32 }
    ensures { OnOk result (NotedAll (keys_of side index i.now) index rows.old.items rows.new.items) }
{
    match side {
        Side::Next => note_nexts(alloc, rows, i, index)?,
        Side::Read => note_reads(alloc, rows, i, index)?,
        Side::Written => note_some(alloc, rows, i.written(), index)?,
    }
    Ok(())
}

/// For each key the instructions that name it, in at least so many rows.
pub fn rows_of(
    alloc: Global,
    side: Side,
    code: &[Instruction],
    count: usize,
) -> Result<Vec<Vec<u32>>, NoMemory>
    requires room { length code.now < 2 ^ 32 }
    requires few { count < 2 ^ 32 }
    ensures { IfOk result (λ rows. RowsOf side code.now count rows.items) }
{
    let mut rows = Vec::new(alloc);
    grow(alloc, &mut rows, count)?;
    for index in 0..code.len() {
        note_keys(alloc, &mut rows, side, &code[index], index as u32)?;
    }
    Ok(rows)
}
