// A depth first search over calls. The path has the functions that are begun, so that none of its
// own runs nests.
ghost use Rattle.std.specs.Prelude.{◌≡◌, ◌+◌, ◌<◌, ◌^◌, [], ℕ, IfOk, OnOk, false, length};
ghost use Rattle.qs_callgraph.specs.CallLists.{IsGraph, flag, number_lists, numbers};
ghost use Rattle.qs_callgraph.specs.Searches.{Begins, GoesBack, HoldsIn, IsLast, IsNewSearch};
ghost use Rattle.qs_callgraph.specs.Searches.{LooksOn, Steps, Visits, is_due, progress_of};
ghost use Rattle.qs_callgraph.specs.declared.search.Progress.TheVariants as stages;

use crate::fault::CycleFault;
use crate::lists::put;
use crate::path::{callee, last_of, path_from};
use qs_base::{FnId, NoMemory};
use std::alloc::Global;

/// How far a function is gone through.
#[derive(Clone, Copy)]
pub enum Progress {
    /// it isn't begun
    New,
    /// it is begun, and so many of the functions that it calls are done
    Open(usize),
    /// it is done
    Done,
}

fn looked_at(progress: Progress) -> usize
    requires { (i : ℕ) × (progress ≡ stages.Open i) }
    ensures { progress ≡ stages.Open result }
{
    match progress {
        Progress::Open(at) => at,
        Progress::New => unreachable!(),
        Progress::Done => unreachable!(),
    }
}

/// The functions of a unit on the way to their order.
#[derive(Drop)]
pub struct Search {
    /// how far each is
    pub progress: Vec<Progress>,
    /// those that are begun, each called by the one before it
    pub path: Vec<FnId>,
    /// those that are done, callees before callers
    pub order: Vec<FnId>,
}

fn progress_of(search: &Search, f: FnId) -> Progress
    requires { f.0 < length search.now.progress.items }
    ensures { result ≡ progress_of search.now.progress.items f.0 }
{
    search.progress[f.0 as usize]
}

/// A search that hasn't begun, over so many functions.
pub fn new_search(alloc: Global, count: usize) -> Result<Search, NoMemory>
    ensures { IfOk result (λ search. IsNewSearch count search) }
{
    Ok(Search {
        progress: Vec::from_elem(alloc, Progress::New, count)?,
        path: Vec::new(alloc),
        order: Vec::new(alloc),
    })
}

/// Whether a function is to be begun: it has no specification and isn't begun.
pub fn is_due(search: &Search, has_spec: &[bool], f: FnId) -> bool
    requires within { f.0 < length search.now.progress.items }
    requires as_many { f.0 < length has_spec.now }
    ensures { result ≡ is_due search.now has_spec.now f.0 }
{
    if has_spec[f.0 as usize] {
        return false;
    }
    match progress_of(search, f) {
        Progress::New => true,
        Progress::Open(_) => false,
        Progress::Done => false,
    }
}

fn look(search: &mut Search, f: FnId, at: usize)
    requires within { f.0 < length search.old.progress.items }
    requires few { at + 1 < 2 ^ 64 }
    ensures { LooksOn at f.0 search.old search.new }
{
    search.progress[f.0 as usize] = Progress::Open(at + 1);
}

fn begin(search: &mut Search, g: FnId) -> Result<(), NoMemory>
    requires { g.0 < length search.old.progress.items }
    ensures { OnOk result (Begins g.0 search.old search.new) }
{
    put(&mut search.path, g)?;
    search.progress[g.0 as usize] = Progress::Open(0);
    Ok(())
}

fn finish(search: &mut Search, f: FnId) -> Result<(), NoMemory>
    requires { f.0 < length search.old.progress.items }
    ensures { OnOk result (GoesBack f.0 search.old search.new) }
{
    put(&mut search.order, f)?;
    let _last = search.path.pop();
    search.progress[f.0 as usize] = Progress::Done;
    Ok(())
}

// Goes on from the last function of the path: to the next that it calls, or back.
fn step(
    alloc: Global,
    graph: &[Vec<FnId>],
    has_spec: &[bool],
    search: &mut Search,
    f: FnId,
) -> Result<(), CycleFault>
    requires graph { IsGraph (number_lists graph.now) has_spec.now }
    requires holds { HoldsIn (number_lists graph.now) has_spec.now search.old }
    requires last { IsLast (numbers search.old.path.items) f.0 }
    ensures { Steps (number_lists graph.now) has_spec.now search.old search.new result }
{
    let at = looked_at(progress_of(search, f));
    let Some(g) = callee(graph, f, at) else {
        return Ok(finish(search, f)?);
    };
    if has_spec[g.0 as usize] {
        look(search, f, at);
        return Ok(());
    }
    match progress_of(search, g) {
        Progress::New => Ok(begin(search, g)?),
        Progress::Open(_) => Err(CycleFault::Cycle(path_from(alloc, &search.path, g)?)),
        Progress::Done => {
            look(search, f, at);
            Ok(())
        }
    }
}

/// Goes through a function and all that it leads to.
pub fn visit(
    alloc: Global,
    graph: &[Vec<FnId>],
    has_spec: &[bool],
    search: &mut Search,
    root: FnId,
) -> Result<(), CycleFault>
    requires graph { IsGraph (number_lists graph.now) has_spec.now }
    requires holds { HoldsIn (number_lists graph.now) has_spec.now search.old }
    requires ended { numbers search.old.path.items ≡ [] }
    requires within { root.0 < length graph.now }
    requires free { flag has_spec.now root.0 ≡ false }
    requires new { progress_of search.old.progress.items root.0 ≡ stages.New }
    ensures { Visits (number_lists graph.now) has_spec.now root.0 search.old search.new result }
{
    begin(search, root)?;
    while let Some(f) = last_of(&search.path) {
        step(alloc, graph, has_spec, search, f)?;
    }
    Ok(())
}
