// Derivations: the heads of all nodes in the order of the text, and then the nodes from the last.
ghost use Rattle.qs_prooftext_assertions.specs.Answers.{Stands, StandAll};
ghost use Rattle.qs_prooftext.specs.DerivationHeads.{statement_row};
ghost use Rattle.qs_prooftext.specs.HeadWalks.{derivation_walk, RowHead, ListHead, HeadStep};
ghost use Rattle.qs_prooftext_meaning.specs.Kinds.{a_derivation};
ghost use Rattle.qs_prooftext_assertions.specs.Walking.{Shortens};
ghost use Rattle.qs_sexpr.specs.Trees.{Sexp, Sexps};
ghost use Rattle.qs_triples.specs.TreeOf.{derivation_tree};
ghost use Rattle.qs_prooftext_assertions.specs.Readers.{Reads};

use crate::building::build;
use crate::lists::{Headed, behind_head, first_list};
use crate::statements::{
    DerivationHead, Statement, statement_head, statement_leaves, statement_takes, statement_word,
};
use qs_prooftext_meaning::{Context, TextFault};
use qs_sexpr::Node;
use qs_triples::Derivation;
use std::alloc::Global;

// ---- heads

/// The node of a list with this statement, and how many of its parts are no derivations.
fn of_statement(
    alloc: Global,
    context: Context<'_>,
    statement: Statement,
    headed: Headed<'_>,
) -> Result<(DerivationHead, usize), TextFault>
    requires { (ss : Sexps) × StandAll context.text.now headed.parts.now ss }
    ensures { RowHead derivation_walk context.entry headed.entry (statement_row statement) result }
{
    if !statement_takes(statement, headed.behind) {
        return Err(TextFault::UnknownForm(headed.at));
    }
    let made = statement_head(alloc, context, statement, headed.behind, headed.parts)?;
    Ok((made, statement_leaves(statement)))
}

/// The node of a list, and how many of its parts are no derivations; they stand first.
fn read_head(
    alloc: Global,
    context: Context<'_>,
    headed: Headed<'_>,
) -> Result<(DerivationHead, usize), TextFault>
    requires { (ss : Sexps) × StandAll context.text.now headed.parts.now ss }
    ensures { ListHead derivation_walk context.entry headed.entry result }
{
    match statement_word(headed.word) {
        Some(statement) => of_statement(alloc, context, statement, headed),
        None => Err(TextFault::UnknownForm(headed.at)),
    }
}

// ---- the walk

/// Reads the head of the first derivation of the rest and its parts that are no derivations; the
/// answer is what is left.
fn next<'a>(
    alloc: Global,
    context: Context<'_>,
    rest: &'a [Node],
    heads: &mut Vec<DerivationHead>,
) -> Result<&'a [Node], TextFault>
    requires { (ss : Sexps) × StandAll context.text.now rest.now ss }
    ensures goes { HeadStep derivation_walk context.entry rest.now heads.old heads.new result }
    ensures shorter { Shortens rest.now result }
{
    let headed = first_list(context.text, rest)?;
    let (made, leaves) = read_head(alloc, context, headed)?;
    heads.push(made)?;
    Ok(behind_head(rest, leaves))
}

/// A derivation.
pub fn read_derivation(
    alloc: Global,
    context: Context<'_>,
    nodes: &[Node],
) -> Result<Derivation, TextFault>
    requires { (s : Sexp) × Stands context.text.now nodes.now s }
    ensures { Reads context.entry nodes.now a_derivation derivation_tree result }
{
    let mut heads = Vec::new(alloc);
    let mut rest = nodes;
    'trees: while !rest.is_empty() {
        rest = next(alloc, context, rest, &mut heads)?;
    }
    Ok(build(alloc, heads)?)
}
