// The order of functions, callees before callers.
ghost use Rattle.std.specs.Prelude.{◌≡◌, IfErr, length};
ghost use Rattle.qs_core.specs.UnitTrees.{unit_tree};
ghost use Rattle.qs_callgraph.specs.CallLists.{IfListed, IsGraph, flag, number_lists};
ghost use Rattle.qs_callgraph.specs.Orders.{IsDepthFirst, IsOrder, IsTrueCycle};
ghost use Rattle.qs_callgraph.specs.Searches.{Ends, IsDepthFirstIn, IsOrderIn};

use crate::callees::call_lists;
use crate::fault::CycleFault;
use crate::search::{is_due, new_search, visit};
use qs_base::FnId;
use qs_core::CoreUnit;
use std::alloc::Global;

/// The members of a graph without a specification, each once, those that one names before it; or a
/// cycle of such members. It is searched depth first, a member and what it leads to after another.
#[tactic(auto, using(crate::proofs::StepLaws::not_due, crate::proofs::StepLaws::next_visited))]
pub fn searched(
    alloc: Global,
    graph: &[Vec<FnId>],
    has_spec: &[bool],
) -> Result<Vec<FnId>, CycleFault>
    requires { IsGraph (number_lists graph.now) has_spec.now }
    ensures order { IfListed result (IsOrderIn (number_lists graph.now) has_spec.now) }
    ensures depth_first { IfListed result (IsDepthFirstIn graph.now has_spec.now) }
    ensures cycle { IfErr result (Ends (number_lists graph.now) has_spec.now) }
{
    let mut search = new_search(alloc, graph.len())?;
    for i in 0..graph.len() {
        let f = FnId::at(i)?;
        if is_due(&search, has_spec, f) {
            visit(alloc, graph, has_spec, &mut search, f)?;
        }
    }
    Ok(search.order)
}

/// The functions without a specification, each once, callees before their callers; or a cycle of
/// such functions where there is no order. `has_spec` has a value for each function of the unit. A
/// callee with a specification ends the search, and what it calls is no matter. The order is that
/// of a depth first search, so there is one.
pub fn order(alloc: Global, unit: &CoreUnit, has_spec: &[bool]) -> Result<Vec<FnId>, CycleFault>
    requires { length has_spec.now ≡ length unit.now.functions.items }
    ensures order { IfListed result (IsOrder (unit_tree unit.now) (flag has_spec.now)) }
    ensures depth_first { IfListed result (IsDepthFirst (unit_tree unit.now) (flag has_spec.now)) }
    ensures cycle { IfErr result (IsTrueCycle (unit_tree unit.now) (flag has_spec.now)) }
{
    let graph = call_lists(alloc, unit)?;
    searched(alloc, &graph, has_spec)
}
