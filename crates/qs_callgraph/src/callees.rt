// The functions that a function calls.
ghost use Rattle.std.specs.Prelude.{◌≡◌, ◌<◌, IfOk, length, slice_set, true};
ghost use Rattle.qs_core.specs.CallGraph as calls;
ghost use Rattle.qs_core.specs.TreeOf.{core_stmt, core_stmts};
ghost use Rattle.qs_core.specs.Trees.{stmts_of};
ghost use Rattle.qs_core.specs.UnitTrees.{unit_tree};
ghost use Rattle.qs_callgraph.specs.CallLists.{call_lists, flagged, marked, numbers, number_lists};

use crate::lists::put;
use qs_base::{FnId, NoMemory};
use qs_calls::Callee;
use qs_core::{CoreStmt, CoreUnit};
use std::alloc::Global;

// ---- marks

fn mark(marks: &mut [bool], g: FnId)
    ensures { marks.new ≡ slice_set marks.old g.0 true }
{
    let at = g.0 as usize;
    if at < marks.len() {
        marks[at] = true;
    }
}

fn mark_callee(marks: &mut [bool], callee: Callee)
    ensures { marks.new ≡ marked (calls.callee callee) marks.old }
{
    match callee {
        Callee::Function(g) => mark(marks, g),
        Callee::PutChar => {}
        Callee::GetChar => {}
    }
}

#[cycle(mark_callees)]
fn mark_callees(marks: &mut [bool], s: &CoreStmt)
    ensures { marks.new ≡ marked (calls.callees (core_stmt s.now)) marks.old }
{
    match s {
        CoreStmt::Skip => {}
        CoreStmt::Seq(ss) => mark_all_callees(marks, ss),
        CoreStmt::Assign(_, _) => {}
        CoreStmt::Store(_, _, _) => {}
        CoreStmt::Copy { .. } => {}
        CoreStmt::Fill(_, _) => {}
        CoreStmt::Call(_, callee, _) => mark_callee(marks, *callee),
        CoreStmt::If(_, first, second) => {
            mark_callees(marks, first);
            mark_callees(marks, second);
        }
        CoreStmt::Loop(body, step) => {
            mark_callees(marks, body);
            mark_callees(marks, step);
        }
        CoreStmt::Switch(_, _, parts) => mark_all_callees(marks, parts),
        CoreStmt::Break => {}
        CoreStmt::Continue => {}
        CoreStmt::Return(_) => {}
    }
}

#[cycle(mark_callees)]
fn mark_all_callees(marks: &mut [bool], ss: &[CoreStmt])
    ensures { marks.new ≡ marked (calls.all_callees (stmts_of (core_stmts ss.now))) marks.old }
{
    for s in ss {
        mark_callees(marks, s);
    }
}

/// The functions that are marked, in order of definition.
pub fn marked_functions(alloc: Global, marks: &[bool]) -> Result<Vec<FnId>, NoMemory>
    ensures { IfOk result (λ fs. numbers fs.items ≡ flagged marks.now) }
{
    let mut fs = Vec::new(alloc);
    for i in 0..marks.len() {
        if marks[i] {
            put(&mut fs, FnId::at(i)?)?;
        }
    }
    Ok(fs)
}

// ---- callees

/// The functions with a body that a function calls, each once, in order of definition.
pub fn called_by(alloc: Global, unit: &CoreUnit, f: FnId) -> Result<Vec<FnId>, NoMemory>
    requires { f.0 < length unit.now.functions.items }
    ensures { IfOk result (λ gs. numbers gs.items ≡ calls.called_by (unit_tree unit.now) f.0) }
{
    let mut marks = Vec::from_elem(alloc, false, unit.functions.len())?;
    mark_all_callees(&mut marks, &unit.functions[f.0 as usize].body);
    marked_functions(alloc, &marks)
}

/// The functions that each function calls.
pub fn call_lists(alloc: Global, unit: &CoreUnit) -> Result<Vec<Vec<FnId>>, NoMemory>
    ensures { IfOk result (λ graph. number_lists graph.items ≡ call_lists (unit_tree unit.now)) }
{
    let mut graph = Vec::new(alloc);
    for i in 0..unit.functions.len() {
        graph.push(called_by(alloc, unit, FnId::at(i)?)?)?;
    }
    Ok(graph)
}
