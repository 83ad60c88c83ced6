// What is added to the proofs of a unit.
ghost use Rattle.std.specs.Prelude.{◌≡◌, IfErr, IfOk, filter, length, map};
ghost use Rattle.qs_core.specs.UnitTrees.{unit_tree};
ghost use Rattle.qs_triples.specs.Filled.{Filled};
ghost use Rattle.qs_triples.specs.TreeOf.{entry_tree, proofs_tree};
ghost use Rattle.qs_callgraph.specs.CallLists.{AreBelow, flag, marked, numbers};
ghost use Rattle.qs_analyse.specs.Fillable.{AreOfEntries, IfProofs, IsFillable, IsUnprovedCycle};
ghost use Rattle.qs_analyse.specs.Fillable.{entry_functions, proofs_of};
ghost use Rattle.qs_analyse.specs.Additions.{AreAdditions, Extends, IsFilling};
ghost use Rattle.qs_analyse.specs.Laws.{DerivesOpen, HasNoCycle};

use crate::definitions::definitions;
use crate::entries::add_entries;
use qs_assert::Room;
use qs_base::{FnId, NoMemory};
use qs_callgraph::{CycleFault, open, order};
use qs_core::CoreUnit;
use qs_triples::{FunctionProof, Proofs};
use std::alloc::Global;

fn mark_entries(flags: &mut [bool], entries: &[FunctionProof])
    ensures { flags.new ≡ marked (entry_functions (map entry_tree entries.now)) flags.old }
{
    for e in entries {
        let at = e.function.0 as usize;
        if at < flags.len() {
            flags[at] = true;
        }
    }
}

// For each function whether it has an entry.
fn has_entries(
    alloc: Global,
    unit: &CoreUnit,
    entries: &[FunctionProof],
) -> Result<Vec<bool>, NoMemory>
    ensures { IfOk result (AreOfEntries (unit_tree unit.now) (proofs_of entries.now)) }
{
    let mut flags = Vec::from_elem(alloc, false, unit.functions.len())?;
    mark_entries(&mut flags, entries);
    Ok(flags)
}

// The open ones of these.
fn open_ones(alloc: Global, fs: &[FnId], is_open: &[bool]) -> Result<Vec<FnId>, NoMemory>
    requires { AreBelow (numbers fs.now) (length is_open.now) }
    ensures { IfOk result (λ gs. numbers gs.items ≡ filter (flag is_open.now) (numbers fs.now)) }
{
    let mut opened = Vec::new(alloc);
    for f in fs {
        if is_open[f.0 as usize] {
            opened.push(*f)?;
        }
    }
    Ok(opened)
}

/// What is to be added.
#[derive(Drop)]
pub struct Additions {
    /// the functions without an entry, callees before callers
    pub functions: Vec<FnId>,
    /// for each function of the unit whether it is open
    pub is_open: Vec<bool>,
    /// the open ones, callees before callers
    pub opened: Vec<FnId>,
}

fn planned(
    alloc: Global,
    unit: &CoreUnit,
    entries: &[FunctionProof],
) -> Result<Additions, CycleFault>
    ensures plan { IfOk result (AreAdditions (unit_tree unit.now) (proofs_of entries.now)) }
    ensures cycle { IfErr result (IsUnprovedCycle (unit_tree unit.now) (proofs_of entries.now)) }
{
    let has_spec = has_entries(alloc, unit, entries)?;
    let functions = order(alloc, unit, &has_spec)?;
    let is_open = open(alloc, unit, &has_spec)?;
    let opened = open_ones(alloc, &functions, &is_open)?;
    Ok(Additions {
        functions,
        is_open,
        opened,
    })
}

fn extended(
    alloc: Global,
    unit: &CoreUnit,
    added: &Additions,
    proofs: Proofs,
) -> Result<Proofs, NoMemory>
    requires { AreAdditions (unit_tree unit.now) (proofs_of proofs.functions.items) added.now }
    ensures { IfProofs result (Extends (unit_tree unit.now) added.now (proofs_tree proofs)) }
{
    let Proofs {
        defines,
        mut functions,
    } = proofs;
    let defines = definitions(alloc, unit, &added.opened, defines)?;
    let mut room = Room::to_keep();
    add_entries(
        alloc,
        &mut room,
        unit,
        &added.is_open,
        &added.functions,
        &mut functions,
    )?;
    Ok(Proofs { defines, functions })
}

/// The proofs with the definitions of the open functions before those that are given, and behind
/// the entries that are given one for each other function; or a cycle of functions without an
/// entry, exactly where there is one. What is given stays as it is and in order. Preconditions that
/// would have more nodes together than there is room for are answered as want of memory.
pub fn fill(alloc: Global, unit: &CoreUnit, proofs: Proofs) -> Result<Proofs, CycleFault>
    requires { IsFillable (unit_tree unit.now) (proofs_tree proofs) }
    ensures filled { IfProofs result (Filled (unit_tree unit.now) (proofs_tree proofs)) }
    ensures filling { IfProofs result (IsFilling (unit_tree unit.now) (proofs_tree proofs)) }
    ensures derived { IfProofs result (DerivesOpen (unit_tree unit.now) (proofs_tree proofs)) }
    ensures no_cycle { IfOk result (λ all. HasNoCycle (unit_tree unit.now) (proofs_tree proofs)) }
    ensures cycle { IfErr result (IsUnprovedCycle (unit_tree unit.now) (proofs_tree proofs)) }
{
    let added = planned(alloc, unit, &proofs.functions)?;
    Ok(extended(alloc, unit, &added, proofs)?)
}
