// The codes of atoms.
ghost use Rattle.std.specs.Prelude.{◌≡◌, IfOk};
ghost use Rattle.std.proofs.Common.{rules};
ghost use Rattle.std.specs.Cmp.{partial_order_from_own_ties};
ghost use Rattle.std.specs.Cmp.Rules.{comparing};
ghost use Rattle.std.specs.Ordering.{as_partial_cmp, eq_by_cmp};
ghost use Rattle.qs_poly.specs.Codes.{atom_of, code, IsCode};
ghost use Rattle.qs_poly.specs.Orders.{atom_cmp, atom_cmp_total};

use crate::node::Node;
use qs_base::NoMemory;
use std::alloc::Global;
use std::cmp::Ordering;
use std::marker::Model;

/// An atom as one list of nodes, without levels: atoms nest by many thousands, and so nothing
/// recurses on them. Seen as the atom.
#[derive(Drop, Debug)]
pub struct AtomCode {
    nodes: Vec<Node>,
}

impl Model for AtomCode {
    ghost use Rattle.qs_poly.specs.Polynomials.{AtomTree};

    ghost Value = { AtomTree };

    ghost use Rattle.qs_poly.specs.Codes.{coded_atom, atom_of, IsCode};

    ghost coded = { coded_atom };

    ghost view = { λ a. atom_of a.nodes.items };

    ghost invariant = { λ a. IsCode a.nodes.items };
}

impl AtomCode {
    /// The atom with this code.
    pub fn new(nodes: Vec<Node>) -> AtomCode
        requires { IsCode nodes.items }
        ensures { result ≡ atom_of nodes.items }
    {
        AtomCode { nodes }
    }

    /// The code.
    pub fn nodes(&self) -> &[Node]
        ensures { result.now ≡ code self.now }
    {
        &self.nodes
    }

    /// The same atom, with nodes of its own.
    pub fn copy(&self, alloc: Global) -> Result<AtomCode, NoMemory>
        ensures { IfOk result (λ a. a ≡ self.now) }
    {
        Ok(AtomCode {
            nodes: Vec::from_slice(alloc, &self.nodes)?,
        })
    }
}

impl PartialEq for AtomCode {
    ghost eq = { eq_by_cmp atom_cmp };

    ghost laws = { Prim.search (comparing, atom_cmp_total, rules) };

    fn eq(&self, other: &AtomCode) -> bool {
        self.cmp(other).is_eq()
    }
}

impl Eq for AtomCode {
    ghost laws = { Prim.search (comparing, atom_cmp_total, rules) };
}

impl PartialOrd for AtomCode {
    ghost partial_cmp = { as_partial_cmp atom_cmp };

    ghost laws = { partial_order_from_own_ties
        (Prim.search (comparing, atom_cmp_total, rules)) (Prim.search (comparing, rules)) };

    fn partial_cmp(&self, other: &AtomCode) -> Option<Ordering> {
        Some(self.cmp(other))
    }
}

impl Ord for AtomCode {
    ghost cmp = { atom_cmp };

    ghost total = { Prim.search (comparing, atom_cmp_total, rules) };

    ghost matches_partial_cmp = { Prim.search (comparing, rules) };

    ghost matches_eq = { Prim.search (comparing, rules) };

    fn cmp(&self, other: &AtomCode) -> Ordering {
        self.nodes.as_slice().cmp(other.nodes.as_slice())
    }
}
