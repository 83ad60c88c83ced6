// Which variables an assertion mentions.
ghost use Rattle.std.specs.Prelude.{◌≡◌, false};
ghost use Rattle.std.specs.List.{list_any};
ghost use Rattle.qs_assert.specs.Substitution.{IsIndependentOf};
ghost use Rattle.qs_assert.specs.Variables as variables;
ghost use Rattle.qs_assert.specs.Variables.{head_mentions, node_mentions};

use crate::{Assertion, Node, TermNode, Var};

fn head_mentions(head: TermNode, x: Var) -> bool
    ensures { result ≡ head_mentions x head }
{
    match head {
        TermNode::Number(_) => false,
        TermNode::Variable(y) => y.same(x),
        TermNode::Add(_) => false,
        TermNode::Sub => false,
        TermNode::Mul(_) => false,
        TermNode::Div(_) => false,
        TermNode::WrapUnsigned => false,
        TermNode::WrapSigned => false,
        TermNode::Bits => false,
    }
}

fn node_mentions(node: &Node, x: Var) -> bool
    ensures { result ≡ node_mentions x node.now }
{
    match node {
        Node::Term(head) => head_mentions(*head, x),
        Node::Condition(_) => false,
        Node::Assertion(_) => false,
    }
}

fn some_mentions(nodes: &[Node], x: Var) -> bool
    ensures { result ≡ list_any (node_mentions x) nodes.now }
{
    nodes.iter().any(|node| node_mentions(node, x))
}

/// Whether the assertion mentions the variable, at its type. If it doesn't, its value is the same
/// whatever the number of the variable.
pub fn mentions(a: &Assertion, x: &Var) -> bool
    ensures test { result ≡ variables.mentions a.now x.now }
    ensures value { result ≡ false → IsIndependentOf a.now x.now }
{
    some_mentions(a.nodes(), *x)
}
