// How many parts follow a node, and whether nodes are those of a term.
ghost use Rattle.std.specs.Prelude.{◌≡◌, MatchOption};
ghost use Rattle.qs_assert.specs.Listing.{term_nodes};
ghost use Rattle.qs_assert.specs.Shapes.{term_arity, cond_arity, assertion_arity, arity};
ghost use Rattle.qs_assert.specs.Shapes.{are_terms, AreOfNoTerm};

use crate::{AssertionNode, CondNode, Node, Term, TermNode};

impl TermNode {
    /// How many parts follow the node.
    pub fn arity(self) -> usize
        ensures { result ≡ term_arity self }
    {
        match self {
            TermNode::Number(_) => 0,
            TermNode::Variable(_) => 0,
            TermNode::Add(count) => count,
            TermNode::Sub => 2,
            TermNode::Mul(count) => count,
            TermNode::Div(_) => 1,
            TermNode::WrapUnsigned => 1,
            TermNode::WrapSigned => 1,
            TermNode::Bits => 1,
        }
    }
}

impl CondNode {
    /// How many parts follow the node.
    pub fn arity(self) -> usize
        ensures { result ≡ cond_arity self }
    {
        match self {
            CondNode::Le => 2,
            CondNode::Lt => 2,
            CondNode::Eq => 2,
            CondNode::Ne => 2,
            CondNode::Not => 1,
            CondNode::And(count) => count,
            CondNode::Or(count) => count,
        }
    }
}

impl AssertionNode {
    /// How many parts follow the node, terms and conditions among them.
    pub fn arity(&self) -> usize
        ensures { result ≡ assertion_arity self.now }
    {
        match self {
            AssertionNode::Natural(_) => 0,
            AssertionNode::Infinity => 0,
            AssertionNode::Cost(_) => 0,
            AssertionNode::Num => 1,
            AssertionNode::Total(count) => *count,
            AssertionNode::Greatest(count) => *count,
            AssertionNode::Product(count) => *count,
            AssertionNode::Guard => 2,
            AssertionNode::If => 3,
            AssertionNode::Named(_) => 0,
        }
    }
}

impl Node {
    /// How many parts follow the node.
    pub fn arity(&self) -> usize
        ensures { result ≡ arity self.now }
    {
        match self {
            Node::Term(head) => head.arity(),
            Node::Condition(head) => head.arity(),
            Node::Assertion(head) => head.arity(),
        }
    }
}

fn is_one_term(nodes: &[TermNode]) -> bool
    ensures { result ≡ are_terms nodes.now 1 }
{
    let mut due: u128 = 1;
    for i in 0..nodes.len() {
        if due == 0 {
            return false;
        }
        due = due - 1 + nodes[i].arity() as u128;
    }
    due == 0
}

impl Term {
    /// The term that has these nodes, each before those of its parts, if there is one.
    pub fn read(nodes: Vec<TermNode>) -> Option<Term>
        ensures { MatchOption result (AreOfNoTerm nodes.items) (λ t. nodes.items ≡ term_nodes t) }
    {
        if is_one_term(&nodes) {
            Some(Term::from_nodes(nodes))
        } else {
            None
        }
    }
}
