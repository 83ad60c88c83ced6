// What an assertion begins with: its head, with its term or condition.
ghost use Rattle.std.specs.Prelude.{◌≡◌, ◌≤◌, length};
ghost use Rattle.qs_entail.specs.Fronts as fronts;

use qs_assert::{AssertionNode, Node, tree_length};

fn has_inner(node: &AssertionNode) -> bool
    ensures { result ≡ fronts.has_inner node.now }
{
    match node {
        AssertionNode::Natural(_) => false,
        AssertionNode::Infinity => false,
        AssertionNode::Cost(_) => false,
        AssertionNode::Num => true,
        AssertionNode::Total(_) => false,
        AssertionNode::Greatest(_) => false,
        AssertionNode::Product(_) => false,
        AssertionNode::Guard => true,
        AssertionNode::If => true,
        AssertionNode::Named(_) => false,
    }
}

fn parts_after(node: &AssertionNode) -> usize
    ensures { result ≡ fronts.parts_after node.now }
{
    match node {
        AssertionNode::Natural(_) => 0,
        AssertionNode::Infinity => 0,
        AssertionNode::Cost(_) => 0,
        AssertionNode::Num => 0,
        AssertionNode::Total(count) => *count,
        AssertionNode::Greatest(count) => *count,
        AssertionNode::Product(count) => *count,
        AssertionNode::Guard => 1,
        AssertionNode::If => 2,
        AssertionNode::Named(_) => 0,
    }
}

/// The length of the first head of an assertion with its term or condition.
pub fn own_length(nodes: &[Node]) -> usize
    ensures value { result ≡ fronts.own_length nodes.now }
    ensures within { result ≤ length nodes.now }
{
    match nodes.split_first() {
        Some((Node::Assertion(head), others)) if has_inner(head) => 1 + tree_length(others),
        Some(_) => 1,
        None => 0,
    }
}

/// How many parts of the first assertion are assertions.
pub fn part_count(nodes: &[Node]) -> usize
    ensures { result ≡ fronts.part_count nodes.now }
{
    match nodes.first() {
        Some(Node::Assertion(head)) => parts_after(head),
        _ => 0,
    }
}
