// Terms, conditions and assertions, each kept as the list of its nodes.
use crate::{Node, TermNode};
use std::marker::Model;

/// A term over whole numbers without bound.
#[derive(Debug, Drop)]
pub struct Term {
    nodes: Vec<TermNode>,
}

impl Model for Term {
    ghost use Rattle.std.specs.Prelude.{◌≡◌};
    ghost use Rattle.qs_assert.specs.Trees.{TermTree};
    ghost use Rattle.qs_assert.specs.Codes.{term_code};
    ghost use Rattle.qs_assert.specs.Listing.{term_nodes};
    ghost use Rattle.qs_assert.specs.Reading.{term_of};

    ghost Value = { TermTree };

    ghost coded = { term_code };

    ghost view = { λ t. term_of t.nodes.items };

    ghost invariant = { λ t. t.nodes.items ≡ term_nodes (term_of t.nodes.items) };
}

/// A condition over terms.
#[derive(Drop)]
pub struct Cond {
    nodes: Vec<Node>,
}

impl Model for Cond {
    ghost use Rattle.std.specs.Prelude.{◌≡◌};
    ghost use Rattle.qs_assert.specs.Trees.{CondTree};
    ghost use Rattle.qs_assert.specs.Codes.{cond_code};
    ghost use Rattle.qs_assert.specs.Listing.{cond_nodes};
    ghost use Rattle.qs_assert.specs.Reading.{cond_of};

    ghost Value = { CondTree };

    ghost coded = { cond_code };

    ghost view = { λ c. cond_of c.nodes.items };

    ghost invariant = { λ c. c.nodes.items ≡ cond_nodes (cond_of c.nodes.items) };
}

/// An assertion: a natural number or infinity in each state.
#[derive(Debug, Drop)]
pub struct Assertion {
    nodes: Vec<Node>,
}

impl Model for Assertion {
    ghost use Rattle.std.specs.Prelude.{◌≡◌};
    ghost use Rattle.qs_assert.specs.Trees.{AssertionTree};
    ghost use Rattle.qs_assert.specs.Codes.{assertion_code};
    ghost use Rattle.qs_assert.specs.Listing.{assertion_nodes};
    ghost use Rattle.qs_assert.specs.Reading.{assertion_of};

    ghost Value = { AssertionTree };

    ghost coded = { assertion_code };

    ghost view = { λ a. assertion_of a.nodes.items };

    ghost invariant = { λ a. a.nodes.items ≡ assertion_nodes (assertion_of a.nodes.items) };
}

impl Term {
    ghost use Rattle.std.specs.Prelude.{◌≡◌};
    ghost use Rattle.qs_assert.specs.Trees.{TermTree};
    ghost use Rattle.qs_assert.specs.Listing.{term_nodes};

    /// The term's nodes, each before those of its parts.
    pub fn nodes(&self) -> &[TermNode]
        ensures { result.now ≡ term_nodes self.now }
    {
        &self.nodes
    }

    /// The term that has these nodes.
    pub fn from_nodes(nodes: Vec<TermNode>) -> Term
        requires { (t : TermTree) × (nodes.items ≡ term_nodes t) }
        ensures { (t : TermTree) → nodes.items ≡ term_nodes t → result ≡ t }
    {
        Term { nodes }
    }
}

impl Cond {
    ghost use Rattle.std.specs.Prelude.{◌≡◌};
    ghost use Rattle.qs_assert.specs.Trees.{CondTree};
    ghost use Rattle.qs_assert.specs.Listing.{cond_nodes};

    /// The condition's nodes, each before those of its parts.
    pub fn nodes(&self) -> &[Node]
        ensures { result.now ≡ cond_nodes self.now }
    {
        &self.nodes
    }

    /// The condition that has these nodes.
    pub fn from_nodes(nodes: Vec<Node>) -> Cond
        requires { (c : CondTree) × (nodes.items ≡ cond_nodes c) }
        ensures { (c : CondTree) → nodes.items ≡ cond_nodes c → result ≡ c }
    {
        Cond { nodes }
    }
}

impl Assertion {
    ghost use Rattle.std.specs.Prelude.{◌≡◌};
    ghost use Rattle.qs_assert.specs.Trees.{AssertionTree};
    ghost use Rattle.qs_assert.specs.Listing.{assertion_nodes};

    /// The assertion's nodes, each before those of its parts.
    pub fn nodes(&self) -> &[Node]
        ensures { result.now ≡ assertion_nodes self.now }
    {
        &self.nodes
    }

    /// The assertion that has these nodes.
    pub fn from_nodes(nodes: Vec<Node>) -> Assertion
        requires { (a : AssertionTree) × (nodes.items ≡ assertion_nodes a) }
        ensures { (a : AssertionTree) → nodes.items ≡ assertion_nodes a → result ≡ a }
    {
        Assertion { nodes }
    }
}
