// The functions by which a function is called.
ghost use Rattle.std.specs.Prelude.{◌≡◌, IfOk, OnOk, length, replicate, []};
ghost use Rattle.qs_callgraph.specs.CallLists.{AreBelow, CalleesAreBelow, number_lists, numbers};
ghost use Rattle.qs_callgraph.specs.Opens.{AddsCaller, AreCallers};

use crate::lists::put;
use qs_base::{FnId, NoMemory};
use std::alloc::Global;

fn no_callers(alloc: Global, count: usize) -> Result<Vec<Vec<FnId>>, NoMemory>
    ensures { IfOk result (λ callers. number_lists callers.items ≡ replicate count []) }
{
    let mut callers = Vec::new(alloc);
    for _i in 0..count {
        callers.push(Vec::new(alloc))?;
    }
    Ok(callers)
}

fn add_caller(callers: &mut [Vec<FnId>], callees: &[FnId], f: FnId) -> Result<(), NoMemory>
    requires { AreBelow (numbers callees.now) (length callers.old) }
    ensures { OnOk result (AddsCaller f.0 callees.now callers.old callers.new) }
{
    for g in callees {
        put(&mut callers[g.0 as usize], f)?;
    }
    Ok(())
}

/// The callers of each function.
pub fn callers_in(alloc: Global, graph: &[Vec<FnId>]) -> Result<Vec<Vec<FnId>>, NoMemory>
    requires { CalleesAreBelow (number_lists graph.now) (length graph.now) }
    ensures { IfOk result (λ all. AreCallers (number_lists graph.now) (number_lists all.items)) }
{
    let mut callers = no_callers(alloc, graph.len())?;
    for i in 0..graph.len() {
        add_caller(&mut callers, &graph[i], FnId::at(i)?)?;
    }
    Ok(callers)
}
