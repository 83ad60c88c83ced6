// Array lengths (C11 6.7.6.2).
ghost use Rattle.std.specs.Prelude.{◌≡◌, Some, IfOk, OnOk, option_map};
ghost use Rattle.qs_syntax.specs.TreeOf.{expr_tree};
ghost use Rattle.qs_types.specs.Constants.{constant_of, length_of, length_within};
ghost use Rattle.qs_types.specs.Declarations.{arrays};
ghost use Rattle.qs_types.specs.Expressions.{type_of};
ghost use Rattle.qs_types.specs.TypeOf.{type_tree};
ghost use Rattle.qs_typing_findings.specs.ContextOf.{context_tree};
ghost use Rattle.qs_typing.specs.DeclaredOf.{all_lengths, numbers, one_length};
ghost use Rattle.qs_typing.specs.LengthsOf.{AreTyped, AreValued, ElementsAreTyped};
ghost use Rattle.qs_typing.specs.LengthsOf.{ElementsAreValued, WalksGiven, WalksLengths};
ghost use Rattle.qs_typing.specs.LengthsOf.{WholeTyped, is_length, is_length_typed};

use qs_base::NoMemory;
use qs_syntax::{Expr, Lengths};
use qs_types::{CType, is_built, is_integer, is_unsigned, value};
use qs_typing_findings::{Context, Position, Walk};
use std::alloc::Global;

/// The lengths of an array, and whether they have types.
#[derive(Drop)]
pub struct ArrayLengths {
    /// Whether each has a type.
    pub all_typed: bool,
    /// Their values, where each is a constant expression of value 1 or more.
    pub values: Option<Vec<u32>>,
}

/// The value of an expression of this type, if it is a constant expression (C11 6.6).
#[tactic(auto, using(qs_types::proofs::KnownValues::value_known))]
pub fn constant(c: &Context, e: &Expr, t: &CType) -> Option<u32>
    requires { Some (type_tree t.now) ≡ type_of (context_tree c.now) (expr_tree e.now) }
    ensures { result ≡ constant_of (context_tree c.now) (expr_tree e.now) }
{
    if is_integer(t) && is_built(c.type_names(), e) {
        value(c.structs(), c.type_names(), e)
    } else {
        None
    }
}

fn length_within(t: &CType, n: u32) -> Option<u32>
    ensures { result ≡ length_within (type_tree t.now) n }
{
    if n == 0 || !is_unsigned(t) && n >= 2_147_483_648 {
        None
    } else {
        Some(n)
    }
}

fn length(c: &Context, e: &Expr, t: &Option<CType>) -> Option<u32>
    requires { option_map type_tree t.now ≡ type_of (context_tree c.now) (expr_tree e.now) }
    ensures { result ≡ length_of (context_tree c.now) (expr_tree e.now) }
{
    let t = t.as_ref()?;
    length_within(t, constant(c, e, t)?)
}

fn with_length(ns: Option<Vec<u32>>, n: Option<u32>) -> Result<Option<Vec<u32>>, NoMemory>
    ensures { IfOk result (λ r. numbers r ≡ all_lengths (numbers ns) (one_length n)) }
{
    match ns {
        None => Ok(None),
        Some(mut ns) => match n {
            None => Ok(None),
            Some(n) => {
                ns.push(n)?;
                Ok(Some(ns))
            }
        },
    }
}

/// Walks over array lengths, and gives them.
pub fn walk_lengths(
    alloc: Global,
    c: &Context,
    es: &[Expr],
    walk: &mut Walk,
) -> Result<ArrayLengths, NoMemory>
    ensures typed { IfOk result (AreTyped c.now es.now) }
    ensures values { IfOk result (AreValued c.now es.now) }
    ensures walked { OnOk result (WalksLengths c.now es.now walk.old walk.new) }
{
    let mut all_typed = true;
    let mut values = Some(Vec::new(alloc));
    for e in es {
        let t = walk.expression(alloc, c, Position::Used, e)?;
        values = with_length(values, length(c, e, &t))?;
        all_typed = all_typed && t.is_some();
    }
    Ok(ArrayLengths { all_typed, values })
}

/// The lengths of a parameter: whether the first has a type and is a length, and those of the
/// elements.
#[derive(Drop)]
pub struct ParameterLengths {
    /// Whether the first has a type.
    pub first_typed: bool,
    /// Whether it is a constant expression of value 1 or more.
    pub first_valid: bool,
    /// The lengths of the elements.
    pub rest: ArrayLengths,
}

/// Walks over the lengths of a parameter, and gives them.
pub fn walk_parameter_lengths(
    alloc: Global,
    c: &Context,
    l: &Lengths,
    walk: &mut Walk,
) -> Result<ParameterLengths, NoMemory>
    ensures first { IfOk result (λ p. p.first_typed ≡ is_length_typed c.now l.now) }
    ensures valid { IfOk result (λ p. p.first_valid ≡ is_length c.now l.now) }
    ensures typed { IfOk result (λ p. ElementsAreTyped c.now l.now p.rest) }
    ensures values { IfOk result (λ p. ElementsAreValued c.now l.now p.rest) }
    ensures whole { IfOk result (WholeTyped c.now l.now) }
    ensures walked { OnOk result (WalksGiven c.now l.now walk.old walk.new) }
{
    if l.is_open || l.given.is_empty() {
        return Ok(ParameterLengths {
            first_typed: true,
            first_valid: true,
            rest: walk_lengths(alloc, c, &l.given, walk)?,
        });
    }
    let t = walk.expression(alloc, c, Position::Used, &l.given[0])?;
    Ok(ParameterLengths {
        first_typed: t.is_some(),
        first_valid: length(c, &l.given[0], &t).is_some(),
        rest: walk_lengths(alloc, c, &l.given[1..], walk)?,
    })
}

/// An array of arrays of the type, of these lengths, the first of which is the outermost
/// (C11 6.7.6.2p3).
pub fn arrays(alloc: Global, of: CType, lengths: &[u32]) -> Result<CType, NoMemory>
    ensures { IfOk result (λ t. type_tree t ≡ arrays (type_tree of) lengths.now) }
{
    let mut t = of;
    let mut i = lengths.len();
    while i > 0 {
        i -= 1;
        t = CType::Array(Box::new(alloc, t)?, lengths[i]);
    }
    Ok(t)
}
