// What ranges are of.
ghost use Rattle.std.specs.Prelude.{◌≡◌};
ghost use Rattle.qs_entail.specs.View.{fact_tree};
ghost use Rattle.qs_prooftext_assertions.specs.Answers.{Gives};
ghost use Rattle.qs_prooftext_meaning.specs.Kinds.{a_range};
ghost use Rattle.qs_prooftext_assertions.specs.Ranges.{cost_range_in, old_range, range_or, range_row};
ghost use Rattle.qs_prooftext_assertions.specs.Ranges.{range_words, row_named, ReadsRange};
ghost use Rattle.qs_prooftext_meaning.specs.Settings.{look_up};
ghost use Rattle.qs_prooftext_assertions.specs.Readers.{Reads, ReadsParts};

use crate::leaves::{function, old_variable};
use crate::parts::{Part, head_of, part_of};
use qs_assert::Var;
use qs_entail::Fact;
use qs_prooftext_meaning::{Context, TextFault, find_variable};
use qs_sexpr::{Node, first_part};

/// The head of what a range is of.
#[derive(Clone, Copy)]
pub enum RangeWord {
    Old,
    Cost,
    Returned,
}

fn range_word(word: &[u8]) -> Option<RangeWord>
    ensures { result ≡ look_up word.now range_words }
{
    match word {
        b"old" => Some(RangeWord::Old),
        b"cost" => Some(RangeWord::Cost),
        b"result" => Some(RangeWord::Returned),
        _ => None,
    }
}

fn of_variable(at: u32, found: Option<Var>) -> Result<Fact, TextFault>
    ensures { Gives fact_tree (range_or at found) result }
{
    match found {
        Some(x) => Ok(Fact::Range(x)),
        None => Err(TextFault::UnknownForm(at)),
    }
}

fn of_old(context: Context<'_>, whole: u32, parts: &[Node]) -> Result<Fact, TextFault>
    ensures { ReadsParts context.entry parts.now (λ g. old_range g whole) fact_tree result }
{
    match first_part(parts) {
        Some((first, _others)) => {
            let x = old_variable(context, whole, part_of(context.text, first))?;
            Ok(Fact::Range(x))
        }
        None => Err(TextFault::UnknownForm(0)),
    }
}

fn of_cost(context: Context<'_>, whole: u32, parts: &[Node]) -> Result<Fact, TextFault>
    ensures { ReadsParts context.entry parts.now (λ g. cost_range_in g whole) fact_tree result }
{
    match first_part(parts) {
        Some((first, _others)) => {
            let f = function(context, whole, part_of(context.text, first))?;
            Ok(Fact::CostRange(f))
        }
        None => Err(TextFault::UnknownForm(0)),
    }
}

fn of_list(
    context: Context<'_>,
    at: u32,
    word: RangeWord,
    behind: usize,
    parts: &[Node],
) -> Result<Fact, TextFault>
    ensures { ReadsRange context.entry at (λ g at. range_row g at word) behind parts.now result }
{
    match word {
        RangeWord::Old => {
            if behind == 1 {
                of_old(context, at, parts)
            } else {
                Err(TextFault::UnknownForm(at))
            }
        }
        RangeWord::Cost => {
            if behind == 1 {
                of_cost(context, at, parts)
            } else {
                Err(TextFault::UnknownForm(at))
            }
        }
        RangeWord::Returned => {
            if behind == 0 {
                of_variable(at, context.result)
            } else {
                Err(TextFault::UnknownForm(at))
            }
        }
    }
}

fn of_head(
    context: Context<'_>,
    at: u32,
    word: &[u8],
    behind: usize,
    parts: &[Node],
) -> Result<Fact, TextFault>
    ensures { ReadsRange context.entry at (row_named word.now) behind parts.now result }
{
    match range_word(word) {
        Some(known) => of_list(context, at, known, behind, parts),
        None => Err(TextFault::UnknownForm(at)),
    }
}

/// What a range is of, as its fact.
#[tactic(auto, using(crate::proofs::RangeLaws::headless_fails))]
pub fn read_range(context: Context<'_>, nodes: &[Node]) -> Result<Fact, TextFault>
    ensures { Reads context.entry nodes.now a_range fact_tree result }
{
    match part_of(context.text, nodes) {
        Part::Number(at, _) => Err(TextFault::UnknownForm(at)),
        Part::Symbol(at, word) => of_variable(at, find_variable(context.words, word)),
        Part::List(at, count, parts) => match head_of(context.text, parts) {
            Some((word, others)) => of_head(context, at, word, count.saturating_sub(1), others),
            None => Err(TextFault::UnknownForm(at)),
        },
    }
}
