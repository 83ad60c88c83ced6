// Assertions are made of their parts.
ghost use Rattle.std.specs.Prelude.{◌≡◌, IfOk};
ghost use Rattle.qs_assert.specs.Trees as trees;

use crate::listing::{leaf, on_assertions, on_guarded, on_term, put_nodes};
use crate::{Assertion, AssertionNode, Cond, Node, Term};
use qs_base::{FnId, Name, NoMemory};
use std::alloc::Global;

impl Assertion {
    /// The number `n`.
    pub fn natural(alloc: Global, n: u64) -> Result<Assertion, NoMemory>
        ensures { IfOk result (λ a. a ≡ trees.natural n) }
    {
        let nodes = leaf(alloc, Node::Assertion(AssertionNode::Natural(n)))?;
        Ok(Assertion::from_nodes(nodes))
    }

    /// Infinity.
    pub fn infinity(alloc: Global) -> Result<Assertion, NoMemory>
        ensures { IfOk result (λ a. a ≡ trees.infinity) }
    {
        let nodes = leaf(alloc, Node::Assertion(AssertionNode::Infinity))?;
        Ok(Assertion::from_nodes(nodes))
    }

    /// The cost of the function `f`.
    pub fn cost(alloc: Global, f: FnId) -> Result<Assertion, NoMemory>
        ensures { IfOk result (λ a. a ≡ trees.cost f.0) }
    {
        let nodes = leaf(alloc, Node::Assertion(AssertionNode::Cost(f)))?;
        Ok(Assertion::from_nodes(nodes))
    }

    /// The greater of 0 and `t`.
    pub fn num(alloc: Global, t: &Term) -> Result<Assertion, NoMemory>
        ensures { IfOk result (λ a. a ≡ trees.num t.now) }
    {
        let nodes = on_term(alloc, Node::Assertion(AssertionNode::Num), t)?;
        Ok(Assertion::from_nodes(nodes))
    }

    /// The sum of the parts.
    pub fn total(alloc: Global, parts: &[Assertion]) -> Result<Assertion, NoMemory>
        ensures { IfOk result (λ a. a ≡ trees.total (trees.assertions_of parts.now)) }
    {
        let nodes = on_assertions(
            alloc,
            Node::Assertion(AssertionNode::Total(parts.len())),
            parts,
        )?;
        Ok(Assertion::from_nodes(nodes))
    }

    /// The greatest of the parts.
    pub fn greatest(alloc: Global, parts: &[Assertion]) -> Result<Assertion, NoMemory>
        ensures { IfOk result (λ a. a ≡ trees.greatest (trees.assertions_of parts.now)) }
    {
        let nodes = on_assertions(
            alloc,
            Node::Assertion(AssertionNode::Greatest(parts.len())),
            parts,
        )?;
        Ok(Assertion::from_nodes(nodes))
    }

    /// The product of the parts, 0 where one is 0.
    pub fn product(alloc: Global, parts: &[Assertion]) -> Result<Assertion, NoMemory>
        ensures { IfOk result (λ a. a ≡ trees.product (trees.assertions_of parts.now)) }
    {
        let nodes = on_assertions(
            alloc,
            Node::Assertion(AssertionNode::Product(parts.len())),
            parts,
        )?;
        Ok(Assertion::from_nodes(nodes))
    }

    /// `part` where `c` holds, else infinity.
    pub fn guard(alloc: Global, c: &Cond, part: &Assertion) -> Result<Assertion, NoMemory>
        ensures { IfOk result (λ a. a ≡ trees.guard c.now part.now) }
    {
        let nodes = on_guarded(alloc, Node::Assertion(AssertionNode::Guard), c, part)?;
        Ok(Assertion::from_nodes(nodes))
    }

    /// `first` where `c` holds, else `second`.
    pub fn choose(
        alloc: Global,
        c: &Cond,
        first: &Assertion,
        second: &Assertion,
    ) -> Result<Assertion, NoMemory>
        ensures { IfOk result (λ a. a ≡ trees.choose c.now first.now second.now) }
    {
        let mut nodes = on_guarded(alloc, Node::Assertion(AssertionNode::If), c, first)?;
        put_nodes(alloc, &mut nodes, second.nodes())?;
        Ok(Assertion::from_nodes(nodes))
    }

    /// The value of the definition of `name`.
    pub fn named(alloc: Global, name: &Name) -> Result<Assertion, NoMemory>
        ensures { IfOk result (λ a. a ≡ trees.named name.now) }
    {
        let copy = name.copy(alloc)?;
        let nodes = leaf(alloc, Node::Assertion(AssertionNode::Named(copy)))?;
        Ok(Assertion::from_nodes(nodes))
    }

    /// The same assertion.
    pub fn copy(&self, alloc: Global) -> Result<Assertion, NoMemory>
        ensures { IfOk result (λ a. a ≡ self.now) }
    {
        let mut nodes = Vec::new(alloc);
        put_nodes(alloc, &mut nodes, self.nodes())?;
        Ok(Assertion::from_nodes(nodes))
    }
}
