// The nodes of an atom's code, and their order.
ghost use Rattle.std.specs.Prelude.{◌≡◌};
ghost use Rattle.std.proofs.Common.{rules};
ghost use Rattle.std.specs.Cmp.{partial_order_from_own_ties};
ghost use Rattle.std.specs.Cmp.Rules.{comparing};
ghost use Rattle.std.specs.Ordering.{as_partial_cmp, eq_by_cmp};
ghost use Rattle.qs_poly.specs.Nodes.{node_cmp, node_number, node_rank};
ghost use Rattle.qs_poly.specs.Nodes.{kind_rank, kind_number, type_rank};

use qs_assert::{NumberType, Var, VarKind};
use qs_base::FnId;
use std::cmp::Ordering;

/// One node of an atom's code in prefix order. `Num` to `Bits` stand before the code of a
/// polynomial: for each term its coefficient, the codes of its atoms and `EndOfTerm`, and at last
/// `EndOfPoly`.
#[derive(Clone, Copy, Debug)]
pub enum Node {
    Variable(Var),
    Cost(FnId),
    Num,
    Div(u64),
    Wrapu,
    Wraps,
    Bits,
    Coefficient(i64),
    EndOfTerm,
    EndOfPoly,
}

fn kind_rank(kind: VarKind) -> u32
    ensures { result ≡ kind_rank kind }
{
    match kind {
        VarKind::Plain(_) => 0,
        VarKind::Temporary(_) => 1,
        VarKind::Old(_) => 2,
        VarKind::Returned => 3,
    }
}

fn kind_number(kind: VarKind) -> u32
    ensures { result ≡ kind_number kind }
{
    match kind {
        VarKind::Plain(number) => number,
        VarKind::Temporary(number) => number,
        VarKind::Old(number) => number,
        VarKind::Returned => 0,
    }
}

fn type_rank(number: NumberType) -> u32
    ensures { result ≡ type_rank number }
{
    match number {
        NumberType::Int => 0,
        NumberType::Unsigned => 1,
        NumberType::Char => 2,
    }
}

fn node_rank(node: Node) -> u32
    ensures { result ≡ node_rank node }
{
    match node {
        Node::EndOfPoly => 0,
        Node::EndOfTerm => 1,
        Node::Cost(_) => 2,
        Node::Num => 3,
        Node::Div(_) => 4,
        Node::Wrapu => 5,
        Node::Wraps => 6,
        Node::Bits => 7,
        Node::Coefficient(_) => 8,
        Node::Variable(x) => 9 + 3 * kind_rank(x.kind) + type_rank(x.number),
    }
}

fn node_number(node: Node) -> i128
    ensures { result ≡ node_number node }
{
    match node {
        Node::Cost(f) => i128::from(f.0),
        Node::Div(k) => i128::from(k),
        Node::Coefficient(c) => i128::from(c),
        Node::Variable(x) => i128::from(kind_number(x.kind)),
        Node::EndOfPoly => 0,
        Node::EndOfTerm => 0,
        Node::Num => 0,
        Node::Wrapu => 0,
        Node::Wraps => 0,
        Node::Bits => 0,
    }
}

impl PartialEq for Node {
    ghost eq = { eq_by_cmp node_cmp };

    ghost laws = { Prim.search (comparing, rules) };

    fn eq(&self, other: &Node) -> bool {
        self.cmp(other).is_eq()
    }
}

impl Eq for Node {
    ghost laws = { Prim.search (comparing, rules) };
}

impl PartialOrd for Node {
    ghost partial_cmp = { as_partial_cmp node_cmp };

    ghost laws = { partial_order_from_own_ties
        (Prim.search (comparing, rules)) (Prim.search (comparing, rules)) };

    fn partial_cmp(&self, other: &Node) -> Option<Ordering> {
        Some(self.cmp(other))
    }
}

impl Ord for Node {
    ghost cmp = { node_cmp };

    ghost total = { Prim.search (comparing, rules) };

    ghost matches_partial_cmp = { Prim.search (comparing, rules) };

    ghost matches_eq = { Prim.search (comparing, rules) };

    fn cmp(&self, other: &Node) -> Ordering {
        node_rank(*self)
            .cmp(&node_rank(*other))
            .then(node_number(*self).cmp(&node_number(*other)))
    }
}
