// The order of definitions.
ghost use Rattle.std.specs.Prelude.{◌≡◌};
ghost use Rattle.std.specs.List.{list_all};
ghost use Rattle.qs_assert.specs.Order as order;
ghost use Rattle.qs_assert.specs.Order.{is_among, names_known, head_known, node_known};

use crate::{Assertion, AssertionNode, Define, Node};
use qs_base::Name;

// Sought from both ends, as a definition mostly names the one before it or one of the first.
#[tactic(auto, using(crate::proofs::OrderLaws::before_behind, crate::proofs::OrderLaws::neither_end))]
fn is_among(defines: &[Define], name: &Name) -> bool
    ensures { result ≡ is_among defines.now name.now }
{
    let count = defines.len();
    for k in 0..count.div_ceil(2) {
        if *name == defines[k].name || *name == defines[count - 1 - k].name {
            return true;
        }
    }
    false
}

fn head_known(earlier: &[Define], head: &AssertionNode) -> bool
    ensures { result ≡ head_known (is_among earlier.now) head.now }
{
    match head {
        AssertionNode::Natural(_) => true,
        AssertionNode::Infinity => true,
        AssertionNode::Cost(_) => true,
        AssertionNode::Num => true,
        AssertionNode::Total(_) => true,
        AssertionNode::Greatest(_) => true,
        AssertionNode::Product(_) => true,
        AssertionNode::Guard => true,
        AssertionNode::If => true,
        AssertionNode::Named(name) => is_among(earlier, name),
    }
}

/// Whether the node isn't a name, or one that is defined among these.
fn node_known(earlier: &[Define], node: &Node) -> bool
    ensures { result ≡ node_known (is_among earlier.now) node.now }
{
    match node {
        Node::Term(_) => true,
        Node::Condition(_) => true,
        Node::Assertion(head) => head_known(earlier, head),
    }
}

fn nodes_known(earlier: &[Define], nodes: &[Node]) -> bool
    ensures { result ≡ list_all (node_known (is_among earlier.now)) nodes.now }
{
    nodes.iter().all(|node| node_known(earlier, node))
}

/// Whether each name in an assertion is defined among these.
fn names_known(earlier: &[Define], a: &Assertion) -> bool
    ensures { result ≡ names_known a.now (is_among earlier.now) }
{
    nodes_known(earlier, a.nodes())
}

/// The number of the first definition that mentions a name that isn't defined earlier.
pub fn order_fault(defines: &[Define]) -> Option<usize>
    ensures { result ≡ order.order_fault defines.now }
{
    for i in 0..defines.len() {
        let earlier = defines.split_at(i).0;
        if !names_known(earlier, &defines[i].body) {
            return Some(i);
        }
    }
    None
}
