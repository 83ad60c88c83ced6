// Atoms, and their codes.
ghost use Rattle.std.specs.Prelude.{◌≡◌, ◌++◌, ◌∷◌, [], IfOk, OnOk};
ghost use Rattle.qs_poly.specs.Atoms.{tree_of};
ghost use Rattle.qs_poly.specs.Canonical.{IsCanonical, IsCanonicalAtom};
ghost use Rattle.qs_poly.specs.Codes.{code, monomial_code, polynomial_code};
ghost use Rattle.qs_poly.specs.Operations.{single};

use crate::code::AtomCode;
use crate::monomial::Monomial;
use crate::node::Node;
use crate::poly::Poly;
use qs_assert::Var;
use qs_base::{FnId, NoMemory};
use std::alloc::Global;

/// What polynomials are over. Two atoms are the same where their heads and numbers are and their
/// polynomials are equal.
#[derive(Drop)]
pub enum Atom {
    /// A variable.
    Variable(Var),
    /// The cost of a function.
    Cost(FnId),
    /// The greater of 0 and a polynomial.
    Num(Poly),
    /// A polynomial divided by a number of at least 1, rounded down.
    Div(Poly, u64),
    /// A polynomial modulo 2^32.
    Wrapu(Poly),
    /// A polynomial modulo 2^32, from -2^31 to 2^31 - 1.
    Wraps(Poly),
    /// The least k of at least 0 such that the polynomial is less than 2^k.
    Bits(Poly),
}

fn push_monomial(nodes: &mut Vec<Node>, monomial: &Monomial) -> Result<(), NoMemory>
    ensures { OnOk result (nodes.new.items ≡ nodes.old.items ++ monomial_code monomial.now) }
{
    for atom in monomial.atoms() {
        nodes.extend_from_slice(atom.nodes())?;
    }
    nodes.push(Node::EndOfTerm)?;
    Ok(())
}

fn push_polynomial(nodes: &mut Vec<Node>, poly: &Poly) -> Result<(), NoMemory>
    ensures code { OnOk result (nodes.new.items ≡ nodes.old.items ++ polynomial_code poly.now) }
    ensures canonical { IsCanonical poly.now }
{
    for term in poly.terms() {
        nodes.push(Node::Coefficient(term.narrow_coefficient()))?;
        push_monomial(nodes, &term.monomial)?;
    }
    nodes.push(Node::EndOfPoly)?;
    Ok(())
}

/// The code of a polynomial after a head.
fn headed(alloc: Global, head: Node, poly: &Poly) -> Result<Vec<Node>, NoMemory>
    ensures code { IfOk result (λ nodes. nodes.items ≡ head ∷ polynomial_code poly.now) }
    ensures canonical { OnOk result (IsCanonical poly.now) }
{
    let mut nodes = Vec::new(alloc);
    nodes.push(head)?;
    push_polynomial(&mut nodes, poly)?;
    Ok(nodes)
}

fn one_node(alloc: Global, node: Node) -> Result<Vec<Node>, NoMemory>
    ensures { IfOk result (λ nodes. nodes.items ≡ node ∷ []) }
{
    let mut nodes = Vec::new(alloc);
    nodes.push(node)?;
    Ok(nodes)
}

fn nodes_of(alloc: Global, atom: &Atom) -> Result<Vec<Node>, NoMemory>
    ensures code { IfOk result (λ nodes. nodes.items ≡ code (tree_of atom.now)) }
    ensures canonical { OnOk result (IsCanonicalAtom (tree_of atom.now)) }
{
    match atom {
        Atom::Variable(x) => one_node(alloc, Node::Variable(*x)),
        Atom::Cost(f) => one_node(alloc, Node::Cost(*f)),
        Atom::Num(p) => headed(alloc, Node::Num, p),
        Atom::Div(p, k) => headed(alloc, Node::Div(*k), p),
        Atom::Wrapu(p) => headed(alloc, Node::Wrapu, p),
        Atom::Wraps(p) => headed(alloc, Node::Wraps, p),
        Atom::Bits(p) => headed(alloc, Node::Bits, p),
    }
}

impl Poly {
    /// An atom.
    pub fn atom(alloc: Global, a: &Atom) -> Result<Poly, NoMemory>
        ensures { IfOk result (λ p. p ≡ single (tree_of a.now)) }
    {
        let nodes = nodes_of(alloc, a)?;
        Poly::single(alloc, AtomCode::new(nodes))
    }

    /// The polynomial as one list: for each term its coefficient, the codes of its atoms and
    /// `EndOfTerm`, and at last `EndOfPoly`.
    pub fn code(&self, alloc: Global) -> Result<Vec<Node>, NoMemory>
        ensures { IfOk result (λ nodes. nodes.items ≡ polynomial_code self.now) }
    {
        let mut nodes = Vec::new(alloc);
        push_polynomial(&mut nodes, self)?;
        Ok(nodes)
    }
}
