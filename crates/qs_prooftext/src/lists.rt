// Lists with a head, and what stands behind their first parts.
ghost use Rattle.std.specs.Prelude.{◌≤◌, ◌<◌, drop, length};
ghost use Rattle.qs_prooftext_assertions.specs.Answers.{StandAll};
ghost use Rattle.qs_prooftext_assertions.specs.Firsts.{tails, StandBehind};
ghost use Rattle.qs_prooftext.specs.HeadWalks.{IsFirst};
ghost use Rattle.qs_sexpr.specs.Trees.{Sexps};

use qs_prooftext_assertions::{Part, after_first, behind, head_of, part_of};
use qs_prooftext_meaning::TextFault;
use qs_sexpr::{Node, first_part};

/// A list with a head.
#[derive(Clone, Copy)]
pub struct Headed<'a> {
    /// the number of its first byte
    pub at: u32,
    /// its head
    pub word: &'a [u8],
    /// how many parts stand behind its head
    pub behind: usize,
    /// their nodes
    pub parts: &'a [Node],
}

/// The first of these lists and atoms, which is to be a list with a head.
pub fn first_list<'a>(text: &'a [u8], rest: &'a [Node]) -> Result<Headed<'a>, TextFault>
    ensures { (ss : Sexps) → StandAll text.now rest.now ss → IsFirst text.now ss result }
{
    let Some((first, _others)) = first_part(rest) else {
        return Err(TextFault::UnknownForm(0));
    };
    match part_of(text, first) {
        Part::Number(at, _) => Err(TextFault::UnknownForm(at)),
        Part::Symbol(at, _) => Err(TextFault::UnknownForm(at)),
        Part::List(at, count, parts) => match head_of(text, parts) {
            Some((word, others)) => Ok(Headed {
                at,
                word,
                behind: count.saturating_sub(1),
                parts: others,
            }),
            None => Err(TextFault::UnknownForm(at)),
        },
    }
}

/// What stands behind so many lists and atoms.
fn skipped(rest: &[Node], count: usize) -> &[Node]
    ensures stand { StandBehind rest.now (tails count) result.now }
    ensures shorter { length result.now ≤ length rest.now }
{
    let mut left = rest;
    for _i in 0..count {
        left = after_first(left);
    }
    left
}

/// What stands behind the node of a list, its head and so many of its other parts.
pub fn behind_head(rest: &[Node], count: usize) -> &[Node]
    ensures stand { StandBehind (drop 2 rest.now) (tails count) result.now }
    ensures shorter { 0 < length rest.now → length result.now < length rest.now }
{
    skipped(behind(rest, 2), count)
}
