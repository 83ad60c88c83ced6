// Terms are made of their parts.
ghost use Rattle.std.specs.Prelude.{◌≡◌, ◌≤◌, IfOk};
ghost use Rattle.qs_assert.specs.Trees as trees;

use crate::listing::{term_leaf, term_on, term_on_all, term_on_two};
use crate::{Term, TermNode, Var};
use qs_base::NoMemory;
use std::alloc::Global;

impl Term {
    /// The number `k`.
    pub fn number(alloc: Global, k: i64) -> Result<Term, NoMemory>
        ensures { IfOk result (λ t. t ≡ trees.number k) }
    {
        let nodes = term_leaf(alloc, TermNode::Number(k))?;
        Ok(Term::from_nodes(nodes))
    }

    /// The variable `x`.
    pub fn variable(alloc: Global, x: Var) -> Result<Term, NoMemory>
        ensures { IfOk result (λ t. t ≡ trees.variable x) }
    {
        let nodes = term_leaf(alloc, TermNode::Variable(x))?;
        Ok(Term::from_nodes(nodes))
    }

    /// The sum of the parts.
    pub fn add(alloc: Global, parts: &[Term]) -> Result<Term, NoMemory>
        ensures { IfOk result (λ t. t ≡ trees.add (trees.terms_of parts.now)) }
    {
        let nodes = term_on_all(alloc, TermNode::Add(parts.len()), parts)?;
        Ok(Term::from_nodes(nodes))
    }

    /// `t` less `u`.
    pub fn sub(alloc: Global, t: &Term, u: &Term) -> Result<Term, NoMemory>
        ensures { IfOk result (λ difference. difference ≡ trees.sub t.now u.now) }
    {
        let nodes = term_on_two(alloc, TermNode::Sub, t, u)?;
        Ok(Term::from_nodes(nodes))
    }

    /// The product of the parts.
    pub fn mul(alloc: Global, parts: &[Term]) -> Result<Term, NoMemory>
        ensures { IfOk result (λ t. t ≡ trees.mul (trees.terms_of parts.now)) }
    {
        let nodes = term_on_all(alloc, TermNode::Mul(parts.len()), parts)?;
        Ok(Term::from_nodes(nodes))
    }

    /// `t` divided by `k`, rounded down.
    pub fn div(alloc: Global, t: &Term, k: u64) -> Result<Term, NoMemory>
        requires { 1 ≤ k }
        ensures { IfOk result (λ quotient. quotient ≡ trees.div t.now k) }
    {
        let nodes = term_on(alloc, TermNode::Div(k), t)?;
        Ok(Term::from_nodes(nodes))
    }

    /// `t` modulo 2^32.
    pub fn wrapu(alloc: Global, t: &Term) -> Result<Term, NoMemory>
        ensures { IfOk result (λ wrapped. wrapped ≡ trees.wrapu t.now) }
    {
        let nodes = term_on(alloc, TermNode::WrapUnsigned, t)?;
        Ok(Term::from_nodes(nodes))
    }

    /// `t` modulo 2^32, from -2^31 to 2^31 - 1.
    pub fn wraps(alloc: Global, t: &Term) -> Result<Term, NoMemory>
        ensures { IfOk result (λ wrapped. wrapped ≡ trees.wraps t.now) }
    {
        let nodes = term_on(alloc, TermNode::WrapSigned, t)?;
        Ok(Term::from_nodes(nodes))
    }

    /// The least k of at least 0 such that `t` is less than 2^k.
    pub fn bits(alloc: Global, t: &Term) -> Result<Term, NoMemory>
        ensures { IfOk result (λ count. count ≡ trees.bits t.now) }
    {
        let nodes = term_on(alloc, TermNode::Bits, t)?;
        Ok(Term::from_nodes(nodes))
    }

    /// The same term.
    pub fn copy(&self, alloc: Global) -> Result<Term, NoMemory>
        ensures { IfOk result (λ t. t ≡ self.now) }
    {
        let nodes = Vec::from_slice(alloc, self.nodes())?;
        Ok(Term::from_nodes(nodes))
    }
}
