// Combinations: lists of items.
ghost use Rattle.qs_entail.specs.View.{item_view};
ghost use Rattle.qs_prooftext_assertions.specs.Firsts.{once_means, twice_means, all_items, items_in};
ghost use Rattle.qs_prooftext_meaning.specs.Kinds.{a_combination, a_natural, an_index, an_item};
ghost use Rattle.qs_prooftext_assertions.specs.Readers.{ReadsAnywhere, ReadsPartsAnywhere, ReadsFirstAnywhere};

use crate::leaves::{index, natural};
use crate::parts::{Part, after_first, part_of};
use qs_entail::Item;
use qs_prooftext_meaning::TextFault;
use qs_sexpr::{Node, first_part};
use std::alloc::Global;

/// The number of a condition, a polynomial or a member, in the first of these parts, or its fault.
#[tactic(auto, using(crate::proofs::FirstLaws::first_gives, crate::proofs::FirstLaws::first_none))]
pub fn first_index(text: &[u8], parts: &[Node]) -> Result<i64, TextFault>
    ensures { ReadsFirstAnywhere text.now parts.now an_index (λ n. n) result }
{
    match first_part(parts) {
        Some((first, _others)) => index(part_of(text, first)),
        None => Err(TextFault::UnknownForm(0)),
    }
}

/// A number of at least 0, in the first of these parts.
#[tactic(auto, using(crate::proofs::FirstLaws::first_gives, crate::proofs::FirstLaws::first_none))]
pub fn first_natural(text: &[u8], parts: &[Node]) -> Result<u64, TextFault>
    ensures { ReadsFirstAnywhere text.now parts.now a_natural (λ n. n) result }
{
    match first_part(parts) {
        Some((first, _others)) => natural(part_of(text, first)),
        None => Err(TextFault::UnknownForm(0)),
    }
}

fn once(text: &[u8], parts: &[Node]) -> Result<Item, TextFault>
    ensures { ReadsPartsAnywhere text.now parts.now once_means item_view result }
{
    let times = first_natural(text, parts)?;
    let first = first_index(text, after_first(parts))?;
    Ok(Item::Once(times, first))
}

fn twice(text: &[u8], parts: &[Node]) -> Result<Item, TextFault>
    ensures { ReadsPartsAnywhere text.now parts.now twice_means item_view result }
{
    let times = first_natural(text, parts)?;
    let first = first_index(text, after_first(parts))?;
    let second = first_index(text, after_first(after_first(parts)))?;
    Ok(Item::Twice(times, first, second))
}

fn read_item(text: &[u8], nodes: &[Node]) -> Result<Item, TextFault>
    ensures { ReadsAnywhere text.now nodes.now an_item item_view result }
{
    match part_of(text, nodes) {
        Part::Number(at, _) => Err(TextFault::UnknownForm(at)),
        Part::Symbol(at, _) => Err(TextFault::UnknownForm(at)),
        Part::List(at, count, parts) => {
            if count == 2 {
                once(text, parts)
            } else if count == 3 {
                twice(text, parts)
            } else {
                Err(TextFault::UnknownForm(at))
            }
        }
    }
}

fn read_items(alloc: Global, text: &[u8], parts: &[Node]) -> Result<Vec<Item>, TextFault>
    ensures { ReadsPartsAnywhere text.now parts.now all_items items_in result }
{
    let mut items = Vec::new(alloc);
    let mut rest = parts;
    'items: while let Some((first, others)) = first_part(rest) {
        items.push(read_item(text, first)?)?;
        rest = others;
    }
    Ok(items)
}

/// A combination.
pub fn read_combination(alloc: Global, text: &[u8], nodes: &[Node]) -> Result<Vec<Item>, TextFault>
    ensures { ReadsAnywhere text.now nodes.now a_combination items_in result }
{
    match part_of(text, nodes) {
        Part::Number(at, _) => Err(TextFault::UnknownForm(at)),
        Part::Symbol(at, _) => Err(TextFault::UnknownForm(at)),
        Part::List(_, _, parts) => read_items(alloc, text, parts),
    }
}
