// Walks over the parts of lists, without copying.
ghost use Rattle.std.specs.Prelude.{◌≡◌, [], MatchOption, take, drop};
ghost use Rattle.qs_sexpr.specs.Parts.{AreOfParts, SplitsInto, below, tree_length};

use crate::node::{Item, Node};

/// How many nodes stand below an item.
fn below(item: Item) -> usize
    ensures { result ≡ below item }
{
    match item {
        Item::Number(_) => 0,
        Item::Symbol(_) => 0,
        Item::List { parts: _, nodes } => nodes as usize,
    }
}

/// How many nodes the first list or atom has.
fn tree_length(nodes: &[Node]) -> usize
    ensures { result ≡ tree_length nodes.now }
{
    match nodes {
        [] => 0,
        [first, others @ ..] => below(first.item).min(others.len()) + 1,
    }
}

/// The nodes of the first list or atom, with everything in it, and the nodes behind it; nothing
/// where there is no node.
#[tactic(auto, using(crate::proofs::PartLaws::splits))]
pub fn first_part(nodes: &[Node]) -> Option<(&[Node], &[Node])>
    ensures { MatchOption result (nodes.now ≡ []) (SplitsInto nodes.now) }
{
    if nodes.is_empty() {
        return None;
    }
    Some(nodes.split_at(tree_length(nodes)))
}

/// The nodes of the parts of the list that has these nodes.
pub fn parts_of_list(nodes: &[Node]) -> &[Node]
    ensures { AreOfParts result.now nodes.now }
{
    match nodes {
        [] => nodes,
        [_, parts @ ..] => parts,
    }
}

/// The bytes of a symbol of so many bytes at this place of the text; fewer, where the text ends
/// before.
pub fn symbol_bytes(text: &[u8], at: u32, length: u32) -> &[u8]
    ensures { result.now ≡ take length (drop at text.now) }
{
    let (_, rest) = text.split_at((at as usize).min(text.len()));
    rest.split_at((length as usize).min(rest.len())).0
}
