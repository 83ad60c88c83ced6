// Whether two trees are the same.
ghost use Rattle.std.specs.Prelude.{◌≡◌, ◌↔◌, IsTrue};
ghost use Rattle.qs_assert.specs.Sameness as sameness;
ghost use Rattle.qs_assert.specs.Sameness.{all_same, same_term_node, same_cond_node};
ghost use Rattle.qs_assert.specs.Sameness.{same_assertion_node, same_node};

use crate::{Assertion, AssertionNode, Cond, CondNode, Node, Term, TermNode};

impl TermNode {
    /// Whether the two nodes are the same.
    pub fn same(self, other: TermNode) -> bool
        ensures { result ≡ same_term_node self other }
    {
        match (self, other) {
            (TermNode::Number(k), TermNode::Number(m)) => k == m,
            (TermNode::Variable(x), TermNode::Variable(y)) => x.same(y),
            (TermNode::Add(n), TermNode::Add(m)) => n == m,
            (TermNode::Sub, TermNode::Sub) => true,
            (TermNode::Mul(n), TermNode::Mul(m)) => n == m,
            (TermNode::Div(k), TermNode::Div(m)) => k == m,
            (TermNode::WrapUnsigned, TermNode::WrapUnsigned) => true,
            (TermNode::WrapSigned, TermNode::WrapSigned) => true,
            (TermNode::Bits, TermNode::Bits) => true,
            _ => false,
        }
    }
}

impl CondNode {
    /// Whether the two nodes are the same.
    pub fn same(self, other: CondNode) -> bool
        ensures { result ≡ same_cond_node self other }
    {
        match (self, other) {
            (CondNode::Le, CondNode::Le) => true,
            (CondNode::Lt, CondNode::Lt) => true,
            (CondNode::Eq, CondNode::Eq) => true,
            (CondNode::Ne, CondNode::Ne) => true,
            (CondNode::Not, CondNode::Not) => true,
            (CondNode::And(n), CondNode::And(m)) => n == m,
            (CondNode::Or(n), CondNode::Or(m)) => n == m,
            _ => false,
        }
    }
}

impl AssertionNode {
    /// Whether the two nodes are the same.
    pub fn same(&self, other: &AssertionNode) -> bool
        ensures { result ≡ same_assertion_node self.now other.now }
    {
        match (self, other) {
            (AssertionNode::Natural(n), AssertionNode::Natural(m)) => n == m,
            (AssertionNode::Infinity, AssertionNode::Infinity) => true,
            (AssertionNode::Cost(f), AssertionNode::Cost(g)) => f.0 == g.0,
            (AssertionNode::Num, AssertionNode::Num) => true,
            (AssertionNode::Total(n), AssertionNode::Total(m)) => n == m,
            (AssertionNode::Greatest(n), AssertionNode::Greatest(m)) => n == m,
            (AssertionNode::Product(n), AssertionNode::Product(m)) => n == m,
            (AssertionNode::Guard, AssertionNode::Guard) => true,
            (AssertionNode::If, AssertionNode::If) => true,
            (AssertionNode::Named(n), AssertionNode::Named(m)) => n == m,
            _ => false,
        }
    }
}

impl Node {
    /// Whether the two nodes are the same.
    pub fn same(&self, other: &Node) -> bool
        ensures { result ≡ same_node self.now other.now }
    {
        match (self, other) {
            (Node::Term(a), Node::Term(b)) => a.same(*b),
            (Node::Condition(a), Node::Condition(b)) => a.same(*b),
            (Node::Assertion(a), Node::Assertion(b)) => a.same(b),
            _ => false,
        }
    }
}

fn same_terms(a: &[TermNode], b: &[TermNode]) -> bool
    ensures { result ≡ all_same same_term_node a.now b.now }
{
    if a.len() != b.len() {
        return false;
    }
    for i in 0..a.len() {
        if !a[i].same(b[i]) {
            return false;
        }
    }
    true
}

/// Whether the two have the same nodes.
pub fn same_nodes(a: &[Node], b: &[Node]) -> bool
    ensures { result ≡ all_same same_node a.now b.now }
{
    if a.len() != b.len() {
        return false;
    }
    for i in 0..a.len() {
        if !a[i].same(&b[i]) {
            return false;
        }
    }
    true
}

impl Term {
    /// Whether the two are the same term.
    pub fn same(&self, other: &Term) -> bool
        ensures test { result ≡ sameness.same_term self.now other.now }
        ensures exact { IsTrue result ↔ (self.now ≡ other.now) }
    {
        same_terms(self.nodes(), other.nodes())
    }
}

impl Cond {
    /// Whether the two are the same condition.
    pub fn same(&self, other: &Cond) -> bool
        ensures test { result ≡ sameness.same_cond self.now other.now }
        ensures exact { IsTrue result ↔ (self.now ≡ other.now) }
    {
        same_nodes(self.nodes(), other.nodes())
    }
}

impl Assertion {
    /// Whether the two are the same assertion.
    pub fn same(&self, other: &Assertion) -> bool
        ensures test { result ≡ sameness.same_assertion self.now other.now }
        ensures exact { IsTrue result ↔ (self.now ≡ other.now) }
    {
        same_nodes(self.nodes(), other.nodes())
    }
}
