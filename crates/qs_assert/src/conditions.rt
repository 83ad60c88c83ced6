// Conditions are made of their parts.
ghost use Rattle.std.specs.Prelude.{◌≡◌, IfOk};
ghost use Rattle.qs_assert.specs.Trees as trees;

use crate::listing::{on_cond, on_conds, on_terms, put_nodes};
use crate::{Cond, CondNode, Node, Term};
use qs_base::NoMemory;
use std::alloc::Global;

impl Cond {
    /// `t` is at most `u`.
    pub fn le(alloc: Global, t: &Term, u: &Term) -> Result<Cond, NoMemory>
        ensures { IfOk result (λ c. c ≡ trees.le t.now u.now) }
    {
        let nodes = on_terms(alloc, Node::Condition(CondNode::Le), t, u)?;
        Ok(Cond::from_nodes(nodes))
    }

    /// `t` is less than `u`.
    pub fn lt(alloc: Global, t: &Term, u: &Term) -> Result<Cond, NoMemory>
        ensures { IfOk result (λ c. c ≡ trees.lt t.now u.now) }
    {
        let nodes = on_terms(alloc, Node::Condition(CondNode::Lt), t, u)?;
        Ok(Cond::from_nodes(nodes))
    }

    /// `t` and `u` are equal.
    pub fn eq(alloc: Global, t: &Term, u: &Term) -> Result<Cond, NoMemory>
        ensures { IfOk result (λ c. c ≡ trees.eq t.now u.now) }
    {
        let nodes = on_terms(alloc, Node::Condition(CondNode::Eq), t, u)?;
        Ok(Cond::from_nodes(nodes))
    }

    /// `t` and `u` differ.
    pub fn ne(alloc: Global, t: &Term, u: &Term) -> Result<Cond, NoMemory>
        ensures { IfOk result (λ c. c ≡ trees.ne t.now u.now) }
    {
        let nodes = on_terms(alloc, Node::Condition(CondNode::Ne), t, u)?;
        Ok(Cond::from_nodes(nodes))
    }

    /// The condition does not hold.
    pub fn not(alloc: Global, part: &Cond) -> Result<Cond, NoMemory>
        ensures { IfOk result (λ c. c ≡ trees.not part.now) }
    {
        let nodes = on_cond(alloc, Node::Condition(CondNode::Not), part)?;
        Ok(Cond::from_nodes(nodes))
    }

    /// All the conditions hold.
    pub fn and(alloc: Global, parts: &[Cond]) -> Result<Cond, NoMemory>
        ensures { IfOk result (λ c. c ≡ trees.and (trees.conds_of parts.now)) }
    {
        let nodes = on_conds(alloc, Node::Condition(CondNode::And(parts.len())), parts)?;
        Ok(Cond::from_nodes(nodes))
    }

    /// One of the conditions holds.
    pub fn or(alloc: Global, parts: &[Cond]) -> Result<Cond, NoMemory>
        ensures { IfOk result (λ c. c ≡ trees.or (trees.conds_of parts.now)) }
    {
        let nodes = on_conds(alloc, Node::Condition(CondNode::Or(parts.len())), parts)?;
        Ok(Cond::from_nodes(nodes))
    }

    /// The same condition.
    pub fn copy(&self, alloc: Global) -> Result<Cond, NoMemory>
        ensures { IfOk result (λ c. c ≡ self.now) }
    {
        let mut nodes = Vec::new(alloc);
        put_nodes(alloc, &mut nodes, self.nodes())?;
        Ok(Cond::from_nodes(nodes))
    }
}
