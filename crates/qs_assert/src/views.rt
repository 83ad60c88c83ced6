// Trees that are read where they stand: the trees in a
// list of nodes, each node before those of its parts.
ghost use Rattle.std.specs.Prelude.{◌≡◌, ◌≤◌, ◌↔◌, ◌∷◌, [], IsTrue, IfOk, MatchOption};
ghost use Rattle.std.specs.Prelude.{length, take, drop};
ghost use Rattle.qs_assert.specs.Trees.{CondTree, AssertionTree, AssertionTrees};
ghost use Rattle.qs_assert.specs.Listing.{cond_nodes, assertion_nodes, assertions_nodes};
ghost use Rattle.qs_assert.specs.Reading.{others};
ghost use Rattle.qs_assert.specs.Sameness as sameness;
ghost use Rattle.qs_assert.specs.Views as views;
ghost use Rattle.qs_assert.specs.Views.{head_arity, front_length, ListsAssertions};

use crate::{Assertion, Cond, Node, put_nodes, same_nodes};
use qs_base::NoMemory;
use std::alloc::Global;
use std::marker::Model;

/// How many parts follow the first node.
pub fn head_arity(nodes: &[Node]) -> usize
    ensures { result ≡ head_arity nodes.now }
{
    match nodes.first() {
        Some(node) => node.arity(),
        None => 0,
    }
}

/// How many nodes the first tree has.
pub fn tree_length(nodes: &[Node]) -> usize
    ensures value { result ≡ front_length nodes.now 1 }
    ensures within { result ≤ length nodes.now }
{
    let mut needed: u128 = 1;
    for i in 0..nodes.len() {
        if needed == 0 {
            return i;
        }
        needed = needed - 1 + nodes[i].arity() as u128;
    }
    nodes.len()
}

/// The first tree, and what follows it.
pub fn split_tree(nodes: &[Node]) -> (&[Node], &[Node])
    ensures first { result.0.now ≡ take (front_length nodes.now 1) nodes.now }
    ensures others { result.1.now ≡ drop (front_length nodes.now 1) nodes.now }
{
    nodes.split_at(tree_length(nodes))
}

/// What follows the first node: the nodes of its parts, and then those of other trees.
pub fn parts(nodes: &[Node]) -> &[Node]
    ensures { result.now ≡ others nodes.now }
{
    match nodes.split_first() {
        Some((_, parts)) => parts,
        None => nodes,
    }
}

/// Whether the node is the first.
pub fn begins(nodes: &[Node], node: &Node) -> bool
    ensures { result ≡ views.begins nodes.now node.now }
{
    match nodes.first() {
        Some(head) => head.same(node),
        None => false,
    }
}

/// A condition in a list of nodes that others hold. Contracts see it as the tree.
#[derive(Drop)]
pub struct CondView<'a> {
    nodes: &'a [Node],
}

impl<'a> Model for CondView<'a> {
    ghost use Rattle.std.specs.Prelude.{◌≡◌};
    ghost use Rattle.qs_assert.specs.Trees.{CondTree};
    ghost use Rattle.qs_assert.specs.Codes.{cond_code};
    ghost use Rattle.qs_assert.specs.Listing.{cond_nodes};
    ghost use Rattle.qs_assert.specs.Reading.{cond_of};

    ghost Value = { CondTree };

    ghost coded = { cond_code };

    ghost view = { λ c. cond_of c.nodes.now };

    ghost invariant = { λ c. c.nodes.now ≡ cond_nodes (cond_of c.nodes.now) };
}

/// An assertion in a list of nodes that others hold. Contracts see it as the tree.
#[derive(Drop)]
pub struct AssertionView<'a> {
    nodes: &'a [Node],
}

impl<'a> Model for AssertionView<'a> {
    ghost use Rattle.std.specs.Prelude.{◌≡◌};
    ghost use Rattle.qs_assert.specs.Trees.{AssertionTree};
    ghost use Rattle.qs_assert.specs.Codes.{assertion_code};
    ghost use Rattle.qs_assert.specs.Listing.{assertion_nodes};
    ghost use Rattle.qs_assert.specs.Reading.{assertion_of};

    ghost Value = { AssertionTree };

    ghost coded = { assertion_code };

    ghost view = { λ a. assertion_of a.nodes.now };

    ghost invariant = { λ a. a.nodes.now ≡ assertion_nodes (assertion_of a.nodes.now) };
}

/// Assertions one after another in a list of nodes that
/// others hold. Contracts see them as a list of trees.
#[derive(Drop)]
pub struct AssertionViews<'a> {
    nodes: &'a [Node],
}

impl<'a> Model for AssertionViews<'a> {
    ghost use Rattle.std.specs.Prelude.{◌≡◌, List};
    ghost use Rattle.qs_assert.specs.Trees.{AssertionTree, assertions_of};
    ghost use Rattle.qs_assert.specs.Listing.{assertions_nodes};
    ghost use Rattle.qs_assert.specs.Views.{assertions_in, assertions_code};

    ghost Value = { List AssertionTree };

    ghost coded = { assertions_code };

    ghost view = { λ v. assertions_in v.nodes.now };

    ghost invariant = { λ v. v.nodes.now ≡ assertions_nodes (assertions_of (assertions_in v.nodes.now)) };
}

impl<'a> CondView<'a> {
    /// The condition that has these nodes.
    pub fn from_nodes(nodes: &'a [Node]) -> CondView<'a>
        requires { (c : CondTree) × (nodes.now ≡ cond_nodes c) }
        ensures { (c : CondTree) → nodes.now ≡ cond_nodes c → result ≡ c }
    {
        CondView { nodes }
    }

    /// The condition's nodes, each before those of its parts.
    pub fn nodes(&self) -> &'a [Node]
        ensures { result.now ≡ cond_nodes self.now }
    {
        self.nodes
    }

    /// A condition of the same content, with nodes of its own.
    pub fn copy(&self, alloc: Global) -> Result<Cond, NoMemory>
        ensures { IfOk result (λ c. c ≡ self.now) }
    {
        let mut nodes = Vec::new(alloc);
        put_nodes(alloc, &mut nodes, self.nodes())?;
        Ok(Cond::from_nodes(nodes))
    }
}

impl<'a> AssertionView<'a> {
    /// The assertion that has these nodes.
    pub fn from_nodes(nodes: &'a [Node]) -> AssertionView<'a>
        requires { (a : AssertionTree) × (nodes.now ≡ assertion_nodes a) }
        ensures { (a : AssertionTree) → nodes.now ≡ assertion_nodes a → result ≡ a }
    {
        AssertionView { nodes }
    }

    /// The assertion's nodes, each before those of its parts.
    pub fn nodes(&self) -> &'a [Node]
        ensures { result.now ≡ assertion_nodes self.now }
    {
        self.nodes
    }

    /// Whether the two are the same assertion.
    pub fn same(&self, other: &AssertionView<'_>) -> bool
        ensures test { result ≡ sameness.same_assertion self.now other.now }
        ensures exact { IsTrue result ↔ (self.now ≡ other.now) }
    {
        same_nodes(self.nodes(), other.nodes())
    }
}

impl<'a> AssertionViews<'a> {
    /// The assertions that have these nodes.
    pub fn from_nodes(nodes: &'a [Node]) -> AssertionViews<'a>
        requires { (parts : AssertionTrees) × (nodes.now ≡ assertions_nodes parts) }
        ensures { ListsAssertions nodes.now result }
    {
        AssertionViews { nodes }
    }

    /// The first assertion and the others, unless there is none.
    pub fn split_first(&self) -> Option<(AssertionView<'a>, AssertionViews<'a>)>
        ensures { MatchOption result (self.now ≡ []) (λ pair. self.now ≡ pair.0 ∷ pair.1) }
    {
        let nodes = self.nodes;
        if nodes.is_empty() {
            return None;
        }
        let (first, others) = split_tree(nodes);
        let first = AssertionView::from_nodes(first);
        Some((first, AssertionViews::from_nodes(others)))
    }
}

impl Cond {
    /// The condition, read where it stands.
    pub fn view(&self) -> CondView<'_>
        ensures { result ≡ self.now }
    {
        CondView::from_nodes(self.nodes())
    }
}

impl Assertion {
    /// The assertion, read where it stands.
    pub fn view(&self) -> AssertionView<'_>
        ensures { result ≡ self.now }
    {
        AssertionView::from_nodes(self.nodes())
    }
}
