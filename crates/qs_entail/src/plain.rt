// Which assertions are polynomials.
ghost use Rattle.std.specs.Prelude.{◌≡◌};
ghost use Rattle.qs_entail.specs.Building as building;
ghost use Rattle.qs_entail.specs.Plain.{is_plain_head, is_plain_node, all_plain_nodes};

use qs_assert::{AssertionNode, AssertionView, Node};

fn is_plain_head(node: &AssertionNode) -> bool
    ensures { result ≡ is_plain_head node.now }
{
    match node {
        AssertionNode::Natural(_) => true,
        AssertionNode::Infinity => false,
        AssertionNode::Cost(_) => true,
        AssertionNode::Num => true,
        AssertionNode::Total(_) => true,
        AssertionNode::Greatest(_) => false,
        AssertionNode::Product(_) => true,
        AssertionNode::Guard => false,
        AssertionNode::If => false,
        AssertionNode::Named(_) => false,
    }
}

fn is_plain_node(node: &Node) -> bool
    ensures { result ≡ is_plain_node node.now }
{
    match node {
        Node::Term(_) => true,
        Node::Condition(_) => true,
        Node::Assertion(head) => is_plain_head(head),
    }
}

fn all_plain_nodes(nodes: &[Node]) -> bool
    ensures { result ≡ all_plain_nodes nodes.now }
{
    for node in nodes {
        if !is_plain_node(node) {
            return false;
        }
    }
    true
}

/// Whether the assertion has only numbers, costs, `num`, sums and products.
#[tactic(auto, using(crate::proofs::PlainNodes::nodes_plain))]
pub fn is_plain(a: &AssertionView<'_>) -> bool
    ensures { result ≡ building.is_plain a.now }
{
    all_plain_nodes(a.nodes())
}
