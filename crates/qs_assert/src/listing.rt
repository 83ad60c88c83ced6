// Lists of nodes are made of the lists of the parts.
ghost use Rattle.std.specs.Prelude.{◌≡◌, [], ◌∷◌, ◌++◌, IfOk, OnOk};
ghost use Rattle.qs_assert.specs.Listing.{term_nodes, terms_nodes, inner_term, term_heads};
ghost use Rattle.qs_assert.specs.Listing.{cond_nodes, conds_nodes};
ghost use Rattle.qs_assert.specs.Listing.{assertion_nodes, assertions_nodes};
ghost use Rattle.qs_assert.specs.Trees.{TermTree, terms_of, conds_of, assertions_of};

use crate::{Assertion, AssertionNode, Cond, Node, Term, TermNode};
use qs_base::NoMemory;
use std::alloc::Global;

impl AssertionNode {
    /// A node of the same content.
    pub fn copy(&self, alloc: Global) -> Result<AssertionNode, NoMemory>
        ensures { IfOk result (λ node. node ≡ self.now) }
    {
        let node = match self {
            AssertionNode::Natural(n) => AssertionNode::Natural(*n),
            AssertionNode::Infinity => AssertionNode::Infinity,
            AssertionNode::Cost(f) => AssertionNode::Cost(*f),
            AssertionNode::Num => AssertionNode::Num,
            AssertionNode::Total(count) => AssertionNode::Total(*count),
            AssertionNode::Greatest(count) => AssertionNode::Greatest(*count),
            AssertionNode::Product(count) => AssertionNode::Product(*count),
            AssertionNode::Guard => AssertionNode::Guard,
            AssertionNode::If => AssertionNode::If,
            AssertionNode::Named(name) => AssertionNode::Named(name.copy(alloc)?),
        };
        Ok(node)
    }
}

impl Node {
    /// A node of the same content.
    pub fn copy(&self, alloc: Global) -> Result<Node, NoMemory>
        ensures { IfOk result (λ node. node ≡ self.now) }
    {
        match self {
            Node::Term(node) => Ok(Node::Term(*node)),
            Node::Condition(node) => Ok(Node::Condition(*node)),
            Node::Assertion(node) => Ok(Node::Assertion(node.copy(alloc)?)),
        }
    }
}

/// The most nodes of a list: an assertion of a proof file of 16 MiB has no more.
const MOST_NODES: usize = 1 << 23;

// That so many more nodes are no more than a list has.
fn room_for(list: &[Node], more: usize) -> Result<(), NoMemory> {
    if list.len().saturating_add(more) > MOST_NODES {
        return Err(NoMemory);
    }
    Ok(())
}

/// Puts the nodes of a term at the end of a list.
pub fn put_term(list: &mut Vec<Node>, t: &Term) -> Result<(), NoMemory>
    ensures { OnOk result (list.new.items ≡ list.old.items ++ inner_term t.now) }
{
    let nodes = t.nodes();
    room_for(list, nodes.len())?;
    for node in nodes {
        list.push(Node::Term(*node))?;
    }
    Ok(())
}

fn term_heads(alloc: Global, nodes: &[Node]) -> Result<Vec<TermNode>, NoMemory>
    ensures { IfOk result (λ list. list.items ≡ term_heads nodes.now) }
{
    let mut list = Vec::new(alloc);
    for node in nodes {
        match node {
            Node::Term(head) => list.push(*head)?,
            Node::Condition(_) => {}
            Node::Assertion(_) => {}
        }
    }
    Ok(list)
}

impl Term {
    /// The term that has these nodes where it stands in a condition or an assertion.
    pub fn from_inner(alloc: Global, nodes: &[Node]) -> Result<Term, NoMemory>
        requires { (t : TermTree) × (nodes.now ≡ inner_term t) }
        ensures { IfOk result (λ r. (t : TermTree) → nodes.now ≡ inner_term t → r ≡ t) }
    {
        let list = term_heads(alloc, nodes)?;
        Ok(Term::from_nodes(list))
    }
}

/// Puts nodes of the same content at the end of a list.
pub fn put_nodes(alloc: Global, list: &mut Vec<Node>, nodes: &[Node]) -> Result<(), NoMemory>
    ensures { IfOk result (λ _. list.new.items ≡ list.old.items ++ nodes.now) }
{
    room_for(list, nodes.len())?;
    for node in nodes {
        list.push(node.copy(alloc)?)?;
    }
    Ok(())
}

/// A node without parts.
pub fn term_leaf(alloc: Global, head: TermNode) -> Result<Vec<TermNode>, NoMemory>
    ensures { IfOk result (λ list. list.items ≡ head ∷ []) }
{
    let mut list = Vec::new(alloc);
    list.push(head)?;
    Ok(list)
}

/// A node with one part.
pub fn term_on(alloc: Global, head: TermNode, t: &Term) -> Result<Vec<TermNode>, NoMemory>
    ensures { IfOk result (λ list. list.items ≡ head ∷ term_nodes t.now) }
{
    let mut list = term_leaf(alloc, head)?;
    list.extend_from_slice(t.nodes())?;
    Ok(list)
}

/// A node with two parts.
pub fn term_on_two(
    alloc: Global,
    head: TermNode,
    t: &Term,
    u: &Term,
) -> Result<Vec<TermNode>, NoMemory>
    ensures { IfOk result (λ list. list.items ≡ head ∷ (term_nodes t.now ++ term_nodes u.now)) }
{
    let mut list = term_on(alloc, head, t)?;
    list.extend_from_slice(u.nodes())?;
    Ok(list)
}

/// A node with any number of parts.
pub fn term_on_all(alloc: Global, head: TermNode, parts: &[Term]) -> Result<Vec<TermNode>, NoMemory>
    ensures { IfOk result (λ list. list.items ≡ head ∷ terms_nodes (terms_of parts.now)) }
{
    let mut list = term_leaf(alloc, head)?;
    for part in parts {
        list.extend_from_slice(part.nodes())?;
    }
    Ok(list)
}

/// A node without parts.
pub fn leaf(alloc: Global, head: Node) -> Result<Vec<Node>, NoMemory>
    ensures { IfOk result (λ list. list.items ≡ head ∷ []) }
{
    let mut list = Vec::new(alloc);
    list.push(head)?;
    Ok(list)
}

/// A node with a term as its part.
pub fn on_term(alloc: Global, head: Node, t: &Term) -> Result<Vec<Node>, NoMemory>
    ensures { IfOk result (λ list. list.items ≡ head ∷ inner_term t.now) }
{
    let mut list = leaf(alloc, head)?;
    put_term(&mut list, t)?;
    Ok(list)
}

/// A node with two terms as its parts.
pub fn on_terms(alloc: Global, head: Node, t: &Term, u: &Term) -> Result<Vec<Node>, NoMemory>
    ensures { IfOk result (λ list. list.items ≡ head ∷ (inner_term t.now ++ inner_term u.now)) }
{
    let mut list = on_term(alloc, head, t)?;
    put_term(&mut list, u)?;
    Ok(list)
}

/// A node with a condition as its part.
pub fn on_cond(alloc: Global, head: Node, c: &Cond) -> Result<Vec<Node>, NoMemory>
    ensures { IfOk result (λ list. list.items ≡ head ∷ cond_nodes c.now) }
{
    let mut list = leaf(alloc, head)?;
    put_nodes(alloc, &mut list, c.nodes())?;
    Ok(list)
}

/// A node with any number of conditions as its parts.
pub fn on_conds(alloc: Global, head: Node, parts: &[Cond]) -> Result<Vec<Node>, NoMemory>
    ensures { IfOk result (λ list. list.items ≡ head ∷ conds_nodes (conds_of parts.now)) }
{
    let mut list = leaf(alloc, head)?;
    for part in parts {
        put_nodes(alloc, &mut list, part.nodes())?;
    }
    Ok(list)
}

/// A node with any number of assertions as its parts.
pub fn on_assertions(alloc: Global, head: Node, parts: &[Assertion]) -> Result<Vec<Node>, NoMemory>
    ensures { IfOk result (λ list. list.items ≡ head ∷ assertions_nodes (assertions_of parts.now)) }
{
    let mut list = leaf(alloc, head)?;
    for part in parts {
        put_nodes(alloc, &mut list, part.nodes())?;
    }
    Ok(list)
}

/// A node with a condition and an assertion as its parts.
pub fn on_guarded(alloc: Global, head: Node, c: &Cond, a: &Assertion) -> Result<Vec<Node>, NoMemory>
    ensures { IfOk result (λ list. list.items ≡ head ∷ cond_nodes c.now ++ assertion_nodes a.now) }
{
    let mut list = on_cond(alloc, head, c)?;
    put_nodes(alloc, &mut list, a.nodes())?;
    Ok(list)
}
