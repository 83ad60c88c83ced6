// The nodes of certificates without the certificates in them.
ghost use Rattle.qs_prooftext_assertions.specs.Answers.{StandAll};
ghost use Rattle.qs_prooftext.specs.CertHeads.{fact_means, head_means, head_view};
ghost use Rattle.qs_prooftext.specs.CertHeads as spec;
ghost use Rattle.qs_entail.specs.View.{fact_tree};
ghost use Rattle.qs_sexpr.specs.Trees.{Sexps};
ghost use Rattle.qs_prooftext_assertions.specs.Readers.{ReadsParts};

use crate::rules::{FactWord, Rule};
use qs_assert::{Assertion, Cond};
use qs_base::Name;
use qs_entail::{Fact, Item};
use qs_prooftext_assertions::{
    apart, bits_half, bits_rise, first_assertion, first_combination, first_condition, first_index,
    first_name, first_range, first_term, num_is, quotient, wrap_signed, wrap_unsigned,
};
use qs_prooftext_meaning::{Context, TextFault};
use qs_sexpr::Node;
use std::alloc::Global;

/// A node of a certificate without the certificates that are its parts.
#[derive(Drop)]
pub enum CertHead {
    Same,
    Via(Assertion),
    Pick(i64),
    /// So many parts.
    All(usize),
    /// So many parts.
    Parts(usize),
    Assume,
    DropGuard,
    Split(Cond),
    Contradict(Vec<Item>),
    Arithmetic(Vec<Item>),
    ByDefinition(Name),
    Fact(Fact),
}

fn via(alloc: Global, context: Context<'_>, parts: &[Node]) -> Result<CertHead, TextFault>
    requires { (ss : Sexps) × StandAll context.text.now parts.now ss }
    ensures { ReadsParts context.entry parts.now spec.via_means head_view result }
{
    let assertion = first_assertion(alloc, context, parts)?;
    Ok(CertHead::Via(assertion))
}

fn pick(context: Context<'_>, parts: &[Node]) -> Result<CertHead, TextFault>
    ensures { ReadsParts context.entry parts.now spec.pick_means head_view result }
{
    let number = first_index(context.text, parts)?;
    Ok(CertHead::Pick(number))
}

fn split(alloc: Global, context: Context<'_>, parts: &[Node]) -> Result<CertHead, TextFault>
    requires { (ss : Sexps) × StandAll context.text.now parts.now ss }
    ensures { ReadsParts context.entry parts.now spec.split_means head_view result }
{
    let condition = first_condition(alloc, context, parts)?;
    Ok(CertHead::Split(condition))
}

fn contradict(alloc: Global, context: Context<'_>, parts: &[Node]) -> Result<CertHead, TextFault>
    ensures { ReadsParts context.entry parts.now spec.contradict_means head_view result }
{
    let items = first_combination(alloc, context, parts)?;
    Ok(CertHead::Contradict(items))
}

fn arithmetic(alloc: Global, context: Context<'_>, parts: &[Node]) -> Result<CertHead, TextFault>
    ensures { ReadsParts context.entry parts.now spec.arithmetic_means head_view result }
{
    let items = first_combination(alloc, context, parts)?;
    Ok(CertHead::Arithmetic(items))
}

fn by_definition(alloc: Global, context: Context<'_>, parts: &[Node]) -> Result<CertHead, TextFault>
    ensures { ReadsParts context.entry parts.now spec.unfold_means head_view result }
{
    let known = first_name(alloc, context, parts)?;
    Ok(CertHead::ByDefinition(known))
}

fn num_bounds(alloc: Global, context: Context<'_>, parts: &[Node]) -> Result<Fact, TextFault>
    requires { (ss : Sexps) × StandAll context.text.now parts.now ss }
    ensures { ReadsParts context.entry parts.now spec.num_bounds_means fact_tree result }
{
    let term = first_term(alloc, context, parts)?;
    Ok(Fact::NumBounds(term))
}

fn wrapu_bounds(alloc: Global, context: Context<'_>, parts: &[Node]) -> Result<Fact, TextFault>
    requires { (ss : Sexps) × StandAll context.text.now parts.now ss }
    ensures { ReadsParts context.entry parts.now spec.wrapu_bounds_means fact_tree result }
{
    let term = first_term(alloc, context, parts)?;
    Ok(Fact::WrapUnsignedBounds(term))
}

fn wraps_bounds(alloc: Global, context: Context<'_>, parts: &[Node]) -> Result<Fact, TextFault>
    requires { (ss : Sexps) × StandAll context.text.now parts.now ss }
    ensures { ReadsParts context.entry parts.now spec.wraps_bounds_means fact_tree result }
{
    let term = first_term(alloc, context, parts)?;
    Ok(Fact::WrapSignedBounds(term))
}

fn bits_bound(alloc: Global, context: Context<'_>, parts: &[Node]) -> Result<Fact, TextFault>
    requires { (ss : Sexps) × StandAll context.text.now parts.now ss }
    ensures { ReadsParts context.entry parts.now spec.bits_bound_means fact_tree result }
{
    let term = first_term(alloc, context, parts)?;
    Ok(Fact::BitsBound(term))
}

/// The node of a certificate with this rule, so many parts behind its head, and these parts.
pub fn rule_head(
    alloc: Global,
    context: Context<'_>,
    rule: Rule,
    count: usize,
    parts: &[Node],
) -> Result<CertHead, TextFault>
    requires { (ss : Sexps) × StandAll context.text.now parts.now ss }
    ensures { ReadsParts context.entry parts.now (λ g. head_means g rule count) head_view result }
{
    match rule {
        Rule::Same => Ok(CertHead::Same),
        Rule::Via => via(alloc, context, parts),
        Rule::Pick => pick(context, parts),
        Rule::All => Ok(CertHead::All(count)),
        Rule::Parts => Ok(CertHead::Parts(count)),
        Rule::Assume => Ok(CertHead::Assume),
        Rule::Drop => Ok(CertHead::DropGuard),
        Rule::Split => split(alloc, context, parts),
        Rule::Contradict => contradict(alloc, context, parts),
        Rule::Arithmetic => arithmetic(alloc, context, parts),
        Rule::ByDefinition => by_definition(alloc, context, parts),
    }
}

/// The fact with this head and these first parts.
pub fn fact_of(
    alloc: Global,
    context: Context<'_>,
    word: FactWord,
    parts: &[Node],
) -> Result<Fact, TextFault>
    requires { (ss : Sexps) × StandAll context.text.now parts.now ss }
    ensures { ReadsParts context.entry parts.now (λ g. fact_means g word) fact_tree result }
{
    match word {
        FactWord::Range => first_range(context, parts),
        FactWord::Apart => apart(alloc, context, parts),
        FactWord::NumIs => num_is(alloc, context, parts),
        FactWord::NumBounds => num_bounds(alloc, context, parts),
        FactWord::WrapUnsignedIs => wrap_unsigned(alloc, context, parts),
        FactWord::WrapSignedIs => wrap_signed(alloc, context, parts),
        FactWord::WrapUnsignedBounds => wrapu_bounds(alloc, context, parts),
        FactWord::WrapSignedBounds => wraps_bounds(alloc, context, parts),
        FactWord::QuotientBounds => quotient(alloc, context, parts),
        FactWord::BitsBound => bits_bound(alloc, context, parts),
        FactWord::BitsHalf => bits_half(alloc, context, parts),
        FactWord::BitsRise => bits_rise(alloc, context, parts),
    }
}
