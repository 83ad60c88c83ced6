// Lists and atoms as they stand in a text.
ghost use Rattle.std.specs.Prelude.{◌≡◌, ◌≤◌, drop, length};
ghost use Rattle.qs_prooftext_assertions.specs.Answers.{IsHead, IsPart, StandAll, Stands};
ghost use Rattle.qs_prooftext_assertions.specs.Firsts.{tail, StandBehind};
ghost use Rattle.qs_prooftext_assertions.specs.Flattening.{IsDivisor, natural_in};
ghost use Rattle.qs_sexpr.specs.Trees.{Sexp, Sexps};

use qs_sexpr::{Item, Node, first_part, parts_of_list, symbol_bytes};

/// A list or atom, with the number of its first byte.
#[derive(Clone, Copy)]
pub enum Part<'a> {
    /// A number.
    Number(u32, i64),
    /// A symbol, with its bytes.
    Symbol(u32, &'a [u8]),
    /// A list: how many parts it has, and their nodes.
    List(u32, usize, &'a [Node]),
}

/// The list or atom that has these nodes.
pub fn part_of<'a>(text: &'a [u8], nodes: &'a [Node]) -> Part<'a>
    ensures { (s : Sexp) → Stands text.now nodes.now s → IsPart text.now s result }
{
    match nodes {
        [] => Part::Number(0, 0),
        [first, _inner @ ..] => match first.item {
            Item::Number(number) => Part::Number(first.at, number),
            Item::Symbol(bytes) => Part::Symbol(first.at, symbol_bytes(text, first.at, bytes)),
            Item::List { parts, nodes: _ } => {
                Part::List(first.at, parts as usize, parts_of_list(nodes))
            }
        },
    }
}

/// The head of a list with these parts, and the nodes of the others; a head is a symbol.
pub fn head_of<'a>(text: &'a [u8], parts: &'a [Node]) -> Option<(&'a [u8], &'a [Node])>
    ensures { (ss : Sexps) → StandAll text.now parts.now ss → IsHead text.now ss result }
{
    let (first, others) = first_part(parts)?;
    match part_of(text, first) {
        Part::Number(_, _) => None,
        Part::Symbol(_, word) => Some((word, others)),
        Part::List(_, _, _) => None,
    }
}

fn natural_in(value: i64) -> u64
    ensures { result ≡ natural_in value }
{
    if value < 0 { 0 } else { value as u64 }
}

/// The number that the second of two parts is, if it is one of at least 0.
pub fn divisor_in(text: &[u8], parts: &[Node]) -> u64
    ensures { (ss : Sexps) → StandAll text.now parts.now ss → IsDivisor result ss }
{
    let Some((first, others)) = first_part(parts) else {
        return 0;
    };
    let Some((second, behind)) = first_part(others) else {
        return 0;
    };
    match part_of(text, second) {
        Part::Number(_, number) => natural_in(number),
        Part::Symbol(_, _) => 0,
        Part::List(_, _, _) => 0,
    }
}

/// The nodes behind the first part.
#[tactic(auto, using(crate::proofs::FirstLaws::tail_stands, crate::proofs::FirstLaws::tail_none))]
pub fn after_first(parts: &[Node]) -> &[Node]
    ensures stand { StandBehind parts.now tail result.now }
    ensures shorter { length result.now ≤ length parts.now }
{
    match first_part(parts) {
        Some((first, others)) => {
            let _first = first;
            others
        }
        None => parts,
    }
}

/// The nodes behind so many nodes.
pub fn behind(rest: &[Node], count: usize) -> &[Node]
    ensures { result.now ≡ drop count rest.now }
{
    rest.split_at(count.min(rest.len())).1
}
