// A condition or its negation, as the list of the conditions that are pushed for it.
ghost use Rattle.std.specs.Prelude.{◌≡◌, ◌≤◌, ◌++◌, IfOk, true};
ghost use Rattle.qs_entail.specs.Flattening as flattening;
ghost use Rattle.qs_entail.specs.Flattening.{flat, whole, PutsParts};

use crate::parts::both_sides;
use qs_assert::stack::{next, put, put_all};
use qs_assert::{Cond, CondNode, CondView, Node, begins, head_arity, parts, split_tree};
use qs_base::NoMemory;
use std::alloc::Global;

fn opens_head(negated: bool, head: CondNode) -> bool
    ensures { result ≡ flattening.opens_head negated head }
{
    match head {
        CondNode::Le => false,
        CondNode::Lt => false,
        CondNode::Eq => false,
        CondNode::Ne => false,
        CondNode::Not => true,
        CondNode::And(_) => !negated,
        CondNode::Or(_) => negated,
    }
}

/// Whether the parts of the first condition are pushed in its place.
fn opens(negated: bool, nodes: &[Node]) -> bool
    ensures { result ≡ flattening.opens negated nodes.now }
{
    match nodes.first() {
        Some(Node::Condition(head)) => opens_head(negated, *head),
        _ => false,
    }
}

/// Says of the parts of the first condition which are negated.
fn open(negated: bool, nodes: &[Node], pending: &mut Vec<bool>) -> Result<(), NoMemory>
    ensures { PutsParts negated nodes.now pending.old.items pending.new.items result }
{
    let is_not = begins(nodes, &Node::Condition(CondNode::Not));
    let negated = if is_not { !negated } else { negated };
    put_all(pending, negated, head_arity(nodes))
}

/// What is pushed for the negation of a condition, which is pushed whole.
fn negation(alloc: Global, c: &CondView<'_>) -> Result<Cond, NoMemory>
    ensures { IfOk result (λ r. r ≡ whole true c.now) }
{
    let nodes = c.nodes();
    if begins(nodes, &Node::Condition(CondNode::Le)) {
        let sides = both_sides(alloc, parts(nodes))?;
        return Cond::lt(alloc, &sides.right, &sides.left);
    }
    if begins(nodes, &Node::Condition(CondNode::Lt)) {
        let sides = both_sides(alloc, parts(nodes))?;
        return Cond::le(alloc, &sides.right, &sides.left);
    }
    if begins(nodes, &Node::Condition(CondNode::Ne)) {
        let sides = both_sides(alloc, parts(nodes))?;
        return Cond::eq(alloc, &sides.left, &sides.right);
    }
    let part = c.copy(alloc)?;
    Cond::not(alloc, &part)
}

/// What is pushed for a condition or its negation, which is pushed whole.
fn whole(alloc: Global, negated: bool, c: &CondView<'_>) -> Result<Cond, NoMemory>
    ensures { IfOk result (λ r. r ≡ whole negated c.now) }
{
    if negated {
        negation(alloc, c)
    } else {
        c.copy(alloc)
    }
}

/// Puts what is pushed for a condition or its negation.
pub fn put_flat(
    alloc: Global,
    c: &CondView<'_>,
    negated: bool,
    list: &mut Vec<Cond>,
) -> Result<(), NoMemory>
    ensures { IfOk result (λ _. list.new.items ≡ list.old.items ++ flat negated c.now) }
{
    let mut pending = Vec::new(alloc);
    put(&mut pending, negated)?;
    let mut rest = c.nodes();
    while let Some(is_negated) = next(&mut pending) {
        if opens(is_negated, rest) {
            open(is_negated, rest, &mut pending)?;
            rest = parts(rest);
        } else {
            let (first, others) = split_tree(rest);
            let pushed = whole(alloc, is_negated, &CondView::from_nodes(first))?;
            list.push(pushed)?;
            rest = others;
        }
    }
    Ok(())
}

/// How many polynomials are pushed for a condition that is pushed whole.
pub fn polynomial_count(c: &Cond) -> usize
    ensures value { result ≡ flattening.polynomial_count c.now }
    ensures within { result ≤ 2 }
{
    match c.nodes().first() {
        Some(Node::Condition(CondNode::Le)) => 1,
        Some(Node::Condition(CondNode::Lt)) => 1,
        Some(Node::Condition(CondNode::Eq)) => 2,
        _ => 0,
    }
}
