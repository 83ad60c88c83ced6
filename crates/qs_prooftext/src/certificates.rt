// Certificates: the heads of all nodes in the order of the text, and then the nodes from the last.
ghost use Rattle.qs_entail.specs.View.{cert_tree};
ghost use Rattle.qs_prooftext_assertions.specs.Answers.{Stands, StandAll};
ghost use Rattle.qs_prooftext.specs.CertRows.{fact_row, rule_row};
ghost use Rattle.qs_prooftext.specs.HeadWalks.{certificate_walk, RowHead, ListHead, HeadStep};
ghost use Rattle.qs_prooftext_meaning.specs.Kinds.{a_certificate};
ghost use Rattle.qs_prooftext_assertions.specs.Walking.{Shortens};
ghost use Rattle.qs_sexpr.specs.Trees.{Sexp, Sexps};
ghost use Rattle.qs_prooftext_assertions.specs.Readers.{Reads};

use crate::heads::{CertHead, fact_of, rule_head};
use crate::lists::{Headed, behind_head, first_list};
use crate::planting::build;
use crate::rules::{FactWord, Rule, fact_leaves, fact_word, rule_leaves, rule_takes, rule_word};
use qs_entail::Certificate;
use qs_prooftext_meaning::{Context, TextFault};
use qs_sexpr::Node;
use std::alloc::Global;

// ---- heads

/// The node of a list with this rule, and how many of its parts are no certificates.
fn of_rule(
    alloc: Global,
    context: Context<'_>,
    rule: Rule,
    headed: Headed<'_>,
) -> Result<(CertHead, usize), TextFault>
    requires { (ss : Sexps) × StandAll context.text.now headed.parts.now ss }
    ensures { RowHead certificate_walk context.entry headed.entry (rule_row rule) result }
{
    if !rule_takes(rule, headed.behind) {
        return Err(TextFault::UnknownForm(headed.at));
    }
    let made = rule_head(alloc, context, rule, headed.behind, headed.parts)?;
    Ok((made, rule_leaves(rule)))
}

/// The node of a list with this fact, and how many of its parts are no certificates.
fn of_fact(
    alloc: Global,
    context: Context<'_>,
    word: FactWord,
    headed: Headed<'_>,
) -> Result<(CertHead, usize), TextFault>
    requires { (ss : Sexps) × StandAll context.text.now headed.parts.now ss }
    ensures { RowHead certificate_walk context.entry headed.entry (fact_row word) result }
{
    let leaves = fact_leaves(word);
    if headed.behind != leaves + 1 {
        return Err(TextFault::UnknownForm(headed.at));
    }
    let made = fact_of(alloc, context, word, headed.parts)?;
    Ok((CertHead::Fact(made), leaves))
}

/// The node of a list, and how many of its parts are no certificates; they stand first.
fn read_head(
    alloc: Global,
    context: Context<'_>,
    headed: Headed<'_>,
) -> Result<(CertHead, usize), TextFault>
    requires { (ss : Sexps) × StandAll context.text.now headed.parts.now ss }
    ensures { ListHead certificate_walk context.entry headed.entry result }
{
    match rule_word(headed.word) {
        Some(rule) => of_rule(alloc, context, rule, headed),
        None => match fact_word(headed.word) {
            Some(word) => of_fact(alloc, context, word, headed),
            None => Err(TextFault::UnknownForm(headed.at)),
        },
    }
}

// ---- the walk

/// Reads the head of the first certificate of the rest and its parts that are no certificates; the
/// answer is what is left.
fn next<'a>(
    alloc: Global,
    context: Context<'_>,
    rest: &'a [Node],
    heads: &mut Vec<CertHead>,
) -> Result<&'a [Node], TextFault>
    requires { (ss : Sexps) × StandAll context.text.now rest.now ss }
    ensures goes { HeadStep certificate_walk context.entry rest.now heads.old heads.new result }
    ensures shorter { Shortens rest.now result }
{
    let headed = first_list(context.text, rest)?;
    let (made, leaves) = read_head(alloc, context, headed)?;
    heads.push(made)?;
    Ok(behind_head(rest, leaves))
}

/// A certificate.
pub fn read_certificate(
    alloc: Global,
    context: Context<'_>,
    nodes: &[Node],
) -> Result<Certificate, TextFault>
    requires { (s : Sexp) × Stands context.text.now nodes.now s }
    ensures { Reads context.entry nodes.now a_certificate cert_tree result }
{
    let mut heads = Vec::new(alloc);
    let mut rest = nodes;
    'trees: while !rest.is_empty() {
        rest = next(alloc, context, rest, &mut heads)?;
    }
    Ok(build(alloc, heads)?)
}
