// Paths of functions, each called by the one before it.
ghost use Rattle.std.specs.Prelude.{◌≡◌, ◌<◌, IfOk, MatchOption, [], length};
ghost use Rattle.qs_callgraph.specs.CallLists.{callees_in, number_lists, numbers};
ghost use Rattle.qs_callgraph.specs.Searches.{FindsCallee, IsLast, IsPathFrom};

use qs_base::{FnId, NoMemory};
use std::alloc::Global;

/// The last function of a path.
pub fn last_of(path: &[FnId]) -> Option<FnId>
    ensures { MatchOption result (numbers path.now ≡ []) (λ f. IsLast (numbers path.now) f.0) }
{
    path.last().copied()
}

/// The path from the first place of this function on.
pub fn path_from(alloc: Global, path: &[FnId], g: FnId) -> Result<Vec<FnId>, NoMemory>
    ensures { IfOk result (λ fs. IsPathFrom (numbers path.now) g.0 (numbers fs.items)) }
{
    for i in 0..path.len() {
        if path[i].0 == g.0 {
            return Ok(Vec::from_slice(alloc, path.split_at(i).1)?);
        }
    }
    Ok(Vec::new(alloc))
}

/// The functions that this one calls.
pub fn callees_of(graph: &[Vec<FnId>], f: FnId) -> &[FnId]
    requires { f.0 < length graph.now }
    ensures { numbers result.now ≡ callees_in (number_lists graph.now) f.0 }
{
    &graph[f.0 as usize]
}

/// The function at this place among those.
pub fn callee(graph: &[Vec<FnId>], f: FnId, at: usize) -> Option<FnId>
    requires { f.0 < length graph.now }
    ensures { FindsCallee (callees_in (number_lists graph.now) f.0) at result }
{
    let callees = callees_of(graph, f);
    if at < callees.len() {
        Some(callees[at])
    } else {
        None
    }
}
