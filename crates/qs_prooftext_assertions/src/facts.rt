// Facts of certificates, from the first parts of their lists.
ghost use Rattle.qs_entail.specs.View.{fact_tree};
ghost use Rattle.qs_prooftext_assertions.specs.Answers.{StandAll};
ghost use Rattle.qs_prooftext_assertions.specs.Facts as spec;
ghost use Rattle.qs_prooftext_assertions.specs.Firsts.{items_in};
ghost use Rattle.qs_prooftext_meaning.specs.Kinds.{a_combination, a_condition, a_name, a_range, a_term};
ghost use Rattle.qs_prooftext_meaning.specs.Kinds.{an_assertion};
ghost use Rattle.qs_sexpr.specs.Trees.{Sexps};
ghost use Rattle.qs_prooftext_assertions.specs.Readers.{ReadsParts, ReadsFirst};

use crate::assertions::{read_assertion, read_condition, read_term};
use crate::combinations::{first_index, first_natural, read_combination};
use crate::leaves::name;
use crate::parts::{after_first, part_of};
use crate::ranges::read_range;
use qs_assert::{Assertion, Cond, Term};
use qs_base::Name;
use qs_entail::{Fact, Item};
use qs_prooftext_meaning::{Context, TextFault};
use qs_sexpr::{Node, first_part};
use std::alloc::Global;

// ---- the first part

/// The term that is the first of these parts, or its first fault.
pub fn first_term(alloc: Global, context: Context<'_>, parts: &[Node]) -> Result<Term, TextFault>
    requires { (ss : Sexps) × StandAll context.text.now parts.now ss }
    ensures { ReadsFirst context.entry parts.now a_term (λ t. t) result }
{
    match first_part(parts) {
        Some((first, _others)) => read_term(alloc, context, first),
        None => Err(TextFault::UnknownForm(0)),
    }
}

/// The assertion that is the first of these parts, or its first fault.
pub fn first_assertion(
    alloc: Global,
    context: Context<'_>,
    parts: &[Node],
) -> Result<Assertion, TextFault>
    requires { (ss : Sexps) × StandAll context.text.now parts.now ss }
    ensures { ReadsFirst context.entry parts.now an_assertion (λ a. a) result }
{
    match first_part(parts) {
        Some((first, _others)) => read_assertion(alloc, context, first),
        None => Err(TextFault::UnknownForm(0)),
    }
}

/// The condition that is the first of these parts, or its first fault.
pub fn first_condition(
    alloc: Global,
    context: Context<'_>,
    parts: &[Node],
) -> Result<Cond, TextFault>
    requires { (ss : Sexps) × StandAll context.text.now parts.now ss }
    ensures { ReadsFirst context.entry parts.now a_condition (λ c. c) result }
{
    match first_part(parts) {
        Some((first, _others)) => read_condition(alloc, context, first),
        None => Err(TextFault::UnknownForm(0)),
    }
}

/// The combination that is the first of these parts, or its first fault.
pub fn first_combination(
    alloc: Global,
    context: Context<'_>,
    parts: &[Node],
) -> Result<Vec<Item>, TextFault>
    ensures { ReadsFirst context.entry parts.now a_combination items_in result }
{
    match first_part(parts) {
        Some((first, _others)) => read_combination(alloc, context.text, first),
        None => Err(TextFault::UnknownForm(0)),
    }
}

/// What a range is of, in the first of these parts, or its first fault.
pub fn first_range(context: Context<'_>, parts: &[Node]) -> Result<Fact, TextFault>
    ensures { ReadsFirst context.entry parts.now a_range fact_tree result }
{
    match first_part(parts) {
        Some((first, _others)) => read_range(context, first),
        None => Err(TextFault::UnknownForm(0)),
    }
}

/// The name that is the first of these parts, or its first fault.
pub fn first_name(alloc: Global, context: Context<'_>, parts: &[Node]) -> Result<Name, TextFault>
    ensures { ReadsFirst context.entry parts.now a_name (λ n. n) result }
{
    match first_part(parts) {
        Some((first, _others)) => name(alloc, part_of(context.text, first)),
        None => Err(TextFault::UnknownForm(0)),
    }
}

// ---- facts

/// `(apart i w ..)`: the fact, or the first fault of these parts.
pub fn apart(alloc: Global, context: Context<'_>, parts: &[Node]) -> Result<Fact, TextFault>
    ensures { ReadsParts context.entry parts.now spec.apart_means fact_tree result }
{
    let number = first_index(context.text, parts)?;
    let items = first_combination(alloc, context, after_first(parts))?;
    Ok(Fact::Apart(number, items))
}

/// `(num t w ..)`: the fact, or the first fault of these parts.
pub fn num_is(alloc: Global, context: Context<'_>, parts: &[Node]) -> Result<Fact, TextFault>
    requires { (ss : Sexps) × StandAll context.text.now parts.now ss }
    ensures { ReadsParts context.entry parts.now spec.num_means fact_tree result }
{
    let term = first_term(alloc, context, parts)?;
    let items = first_combination(alloc, context, after_first(parts))?;
    Ok(Fact::NumIs(term, items))
}

/// `(half t w ..)`: the fact, or the first fault of these parts.
pub fn bits_half(alloc: Global, context: Context<'_>, parts: &[Node]) -> Result<Fact, TextFault>
    requires { (ss : Sexps) × StandAll context.text.now parts.now ss }
    ensures { ReadsParts context.entry parts.now spec.half_means fact_tree result }
{
    let term = first_term(alloc, context, parts)?;
    let items = first_combination(alloc, context, after_first(parts))?;
    Ok(Fact::BitsHalf(term, items))
}

/// `(div t k ..)`: the fact, or the first fault of these parts.
pub fn quotient(alloc: Global, context: Context<'_>, parts: &[Node]) -> Result<Fact, TextFault>
    requires { (ss : Sexps) × StandAll context.text.now parts.now ss }
    ensures { ReadsParts context.entry parts.now spec.quotient_means fact_tree result }
{
    let term = first_term(alloc, context, parts)?;
    let divisor = first_natural(context.text, after_first(parts))?;
    Ok(Fact::QuotientBounds(term, divisor))
}

/// `(wrapu t v w ..)`: the fact, or the first fault of these parts.
pub fn wrap_unsigned(alloc: Global, context: Context<'_>, parts: &[Node]) -> Result<Fact, TextFault>
    requires { (ss : Sexps) × StandAll context.text.now parts.now ss }
    ensures { ReadsParts context.entry parts.now spec.wrapu_means fact_tree result }
{
    let term = first_term(alloc, context, parts)?;
    let first = first_combination(alloc, context, after_first(parts))?;
    let second = first_combination(alloc, context, after_first(after_first(parts)))?;
    Ok(Fact::WrapUnsignedIs(term, first, second))
}

/// `(wraps t v w ..)`: the fact, or the first fault of these parts.
pub fn wrap_signed(alloc: Global, context: Context<'_>, parts: &[Node]) -> Result<Fact, TextFault>
    requires { (ss : Sexps) × StandAll context.text.now parts.now ss }
    ensures { ReadsParts context.entry parts.now spec.wraps_means fact_tree result }
{
    let term = first_term(alloc, context, parts)?;
    let first = first_combination(alloc, context, after_first(parts))?;
    let second = first_combination(alloc, context, after_first(after_first(parts)))?;
    Ok(Fact::WrapSignedIs(term, first, second))
}

/// `(mono t u w ..)`: the fact, or the first fault of these parts.
pub fn bits_rise(alloc: Global, context: Context<'_>, parts: &[Node]) -> Result<Fact, TextFault>
    requires { (ss : Sexps) × StandAll context.text.now parts.now ss }
    ensures { ReadsParts context.entry parts.now spec.rise_means fact_tree result }
{
    let term = first_term(alloc, context, parts)?;
    let greater = first_term(alloc, context, after_first(parts))?;
    let items = first_combination(alloc, context, after_first(after_first(parts)))?;
    Ok(Fact::BitsRise(term, greater, items))
}
