// Open functions.
ghost use Rattle.std.specs.Prelude.{◌≡◌, IfOk, OnOk, length, map, not};
ghost use Rattle.qs_core.specs.UnitTrees.{unit_tree};
ghost use Rattle.qs_callgraph.specs.CallLists.{AreBelow, IsGraph, number_lists, numbers};
ghost use Rattle.qs_callgraph.specs.Opens.{AreClosed, ClosesAll, TellsOpenOf};

use crate::callees::{call_lists, marked_functions};
use crate::callers::callers_in;
use crate::lists::put;
use qs_base::{FnId, NoMemory};
use qs_core::CoreUnit;
use std::alloc::Global;

fn close_callers(closed: &mut [bool], due: &mut Vec<FnId>, callers: &[FnId]) -> Result<(), NoMemory>
    requires { AreBelow (numbers callers.now) (length closed.old) }
    ensures { OnOk result (ClosesAll callers.now closed.old closed.new due.old due.new) }
{
    for f in callers {
        let at = f.0 as usize;
        if !closed[at] {
            put(due, *f)?;
            closed[at] = true;
        }
    }
    Ok(())
}

// The functions from which calls lead to one with a specification.
fn closed_ones(
    alloc: Global,
    callers: &[Vec<FnId>],
    has_spec: &[bool],
) -> Result<Vec<bool>, NoMemory>
    requires { IsGraph (number_lists callers.now) has_spec.now }
    ensures { IfOk result (λ flags. AreClosed (number_lists callers.now) has_spec.now flags.items) }
{
    let mut closed = Vec::from_slice(alloc, has_spec)?;
    let mut due = marked_functions(alloc, has_spec)?;
    while let Some(g) = due.pop() {
        close_callers(&mut closed, &mut due, &callers[g.0 as usize])?;
    }
    Ok(closed)
}

fn others(alloc: Global, closed: &[bool]) -> Result<Vec<bool>, NoMemory>
    ensures { IfOk result (λ flags. flags.items ≡ map not closed.now) }
{
    Ok(closed.iter().map(|c| !*c).collect(alloc)?)
}

/// For each function of the unit whether it is open: neither it nor any function to which calls
/// lead from it has a specification. `has_spec` has a value for each function of the unit.
pub fn open(alloc: Global, unit: &CoreUnit, has_spec: &[bool]) -> Result<Vec<bool>, NoMemory>
    requires { length has_spec.now ≡ length unit.now.functions.items }
    ensures as_many { IfOk result (λ flags. length flags.items ≡ length unit.now.functions.items) }
    ensures open_ones { IfOk result (TellsOpenOf (unit_tree unit.now) has_spec.now) }
{
    let graph = call_lists(alloc, unit)?;
    let callers = callers_in(alloc, &graph)?;
    let closed = closed_ones(alloc, &callers, has_spec)?;
    others(alloc, &closed)
}
