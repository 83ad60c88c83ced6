// Conditionals on a condition are replaced by a branch.
ghost use Rattle.std.specs.Prelude.{◌≡◌, IfOk};
ghost use Rattle.qs_assert.specs.Listing.{cond_nodes};
ghost use Rattle.qs_entail.specs.Branching as branching;
ghost use Rattle.qs_entail.specs.Branching.{PutsCopied, PutsKept};
ghost use Rattle.qs_entail.specs.Faults as faults;

use crate::fronts::{own_length, part_count};
use qs_assert::stack::{next, put, put_all};
use qs_assert::{
    Assertion, AssertionNode, AssertionView, CondView, Node, begins, parts, put_nodes, same_nodes,
    split_tree, tree_length,
};
use qs_base::NoMemory;
use std::alloc::Global;

fn chooses(b: &CondView<'_>, nodes: &[Node]) -> bool
    ensures { result ≡ branching.chooses (cond_nodes b.now) nodes.now }
{
    begins(nodes, &Node::Assertion(AssertionNode::If))
        && same_nodes(b.nodes(), split_tree(parts(nodes)).0)
}

/// Puts what is copied of the first assertion, and says which of its parts are kept.
fn keep(
    alloc: Global,
    b: &CondView<'_>,
    first: bool,
    rest: &[Node],
    nodes: &mut Vec<Node>,
    pending: &mut Vec<bool>,
) -> Result<(), NoMemory>
    ensures nodes { PutsCopied b.now rest.now nodes.old.items nodes.new.items result }
    ensures marks { PutsKept b.now first rest.now pending.old.items pending.new.items result }
{
    if chooses(b, rest) {
        put(pending, !first)?;
        put(pending, first)?;
        return Ok(());
    }
    put_nodes(alloc, nodes, rest.split_at(own_length(rest)).0)?;
    put_all(pending, true, part_count(rest))?;
    Ok(())
}

/// The assertion with each conditional on `b` replaced by its first branch or its second.
pub fn branch(
    alloc: Global,
    b: &CondView<'_>,
    first: bool,
    a: &AssertionView<'_>,
) -> Result<Assertion, NoMemory>
    ensures { IfOk result (λ r. r ≡ faults.branch b.now first a.now) }
{
    let mut nodes = Vec::new(alloc);
    let mut pending = Vec::new(alloc);
    put(&mut pending, true)?;
    let mut rest = a.nodes();
    while let Some(is_kept) = next(&mut pending) {
        if is_kept {
            keep(alloc, b, first, rest, &mut nodes, &mut pending)?;
            rest = rest.split_at(own_length(rest)).1;
        } else {
            rest = rest.split_at(tree_length(rest)).1;
        }
    }
    Ok(Assertion::from_nodes(nodes))
}
