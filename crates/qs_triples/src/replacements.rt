// Variables of assertions are replaced: those of a called function at a call of it, and values at
// the entry.
ghost use Rattle.std.specs.Prelude.{◌≡◌, IfOk, OnOk};
ghost use Rattle.qs_assert.specs.Listing.{inner_term};
ghost use Rattle.qs_assert.specs.Replacing.{replacement};
ghost use Rattle.qs_core.specs.TreeOf.{core_exprs};
ghost use Rattle.qs_triples.specs.Mentions as spec;
ghost use Rattle.qs_triples.specs.Replacements.{first_missing, image, images_before};
ghost use Rattle.qs_triples.specs.Replacements.{images_behind, is_missing, replaced, terms_in};
ghost use Rattle.qs_triples.specs.TermLists.{Puts};

use crate::mentions::{Standing, may_mention};
use crate::terms::expression_term;
use qs_assert::{Assertion, Node, Term, TermNode, Var, VarKind, put_term};
use qs_base::NoMemory;
use qs_core::{CoreExpr, CoreFunction};
use std::alloc::Global;

/// What stands for the variables of an assertion.
#[derive(Clone, Copy)]
pub enum Replacement<'a> {
    /// In a precondition of this function: for the parameters the terms of these arguments.
    BeforeCall(&'a CoreFunction, &'a [CoreExpr]),
    /// In a postcondition of this function: for the values of the parameters at the entry the terms
    /// of these arguments, for the result this temporary.
    BehindCall(&'a CoreFunction, Option<u32>, &'a [CoreExpr]),
    /// For each variable its value at the entry.
    AsOld,
    /// For the values at the entry the variables.
    AsPlain,
}

// ---- images

fn argument_term(alloc: Global, es: &[CoreExpr], i: u32) -> Result<Option<Term>, NoMemory>
    ensures { IfOk result (λ t. t ≡ spec.argument_term (core_exprs es.now) i) }
{
    match es.get(i as usize) {
        None => Ok(None),
        Some(e) => expression_term(alloc, e),
    }
}

fn destination_term(
    alloc: Global,
    destination: Option<u32>,
    x: Var,
) -> Result<Option<Term>, NoMemory>
    ensures { IfOk result (λ t. t ≡ spec.destination_term destination x) }
{
    match destination {
        None => Ok(None),
        Some(k) => Ok(Some(Term::variable(
            alloc,
            Var {
                kind: VarKind::Temporary(k),
                number: x.number,
            },
        )?)),
    }
}

fn pre_term(alloc: Global, es: &[CoreExpr], x: Var) -> Result<Option<Term>, NoMemory>
    ensures { IfOk result (λ t. t ≡ spec.pre_term (core_exprs es.now) x x.kind) }
{
    match x.kind {
        VarKind::Plain(i) => argument_term(alloc, es, i),
        VarKind::Temporary(_) => Ok(None),
        VarKind::Old(_) => Ok(None),
        VarKind::Returned => Ok(None),
    }
}

fn post_term(
    alloc: Global,
    destination: Option<u32>,
    es: &[CoreExpr],
    x: Var,
) -> Result<Option<Term>, NoMemory>
    ensures { IfOk result (λ t. t ≡ spec.post_term destination (core_exprs es.now) x x.kind) }
{
    match x.kind {
        VarKind::Plain(_) => Ok(None),
        VarKind::Temporary(_) => Ok(None),
        VarKind::Old(i) => argument_term(alloc, es, i),
        VarKind::Returned => destination_term(alloc, destination, x),
    }
}

fn pre_image(
    alloc: Global,
    g: &CoreFunction,
    es: &[CoreExpr],
    x: Var,
) -> Result<Option<Term>, NoMemory>
    ensures { IfOk result (λ t. t ≡ images_before g.now es.now x) }
{
    if may_mention(g, Standing::Before, x) {
        pre_term(alloc, es, x)
    } else {
        Ok(None)
    }
}

fn post_image(
    alloc: Global,
    g: &CoreFunction,
    destination: Option<u32>,
    es: &[CoreExpr],
    x: Var,
) -> Result<Option<Term>, NoMemory>
    ensures { IfOk result (λ t. t ≡ images_behind g.now destination es.now x) }
{
    if may_mention(g, Standing::Behind, x) {
        post_term(alloc, destination, es, x)
    } else {
        Ok(None)
    }
}

fn old_kind(kind: VarKind) -> VarKind
    ensures { result ≡ spec.old_kind kind }
{
    match kind {
        VarKind::Plain(x) => VarKind::Old(x),
        VarKind::Temporary(k) => VarKind::Temporary(k),
        VarKind::Old(x) => VarKind::Old(x),
        VarKind::Returned => VarKind::Returned,
    }
}

/// The kind under which a parameter is told.
pub fn plain_kind(kind: VarKind) -> VarKind
    ensures { result ≡ spec.plain_kind kind }
{
    match kind {
        VarKind::Plain(x) => VarKind::Plain(x),
        VarKind::Temporary(k) => VarKind::Temporary(k),
        VarKind::Old(x) => VarKind::Plain(x),
        VarKind::Returned => VarKind::Returned,
    }
}

fn renamed(alloc: Global, kind: VarKind, x: Var) -> Result<Term, NoMemory>
    ensures { IfOk result (λ t. t ≡ spec.renamed kind x) }
{
    Term::variable(
        alloc,
        Var {
            kind,
            number: x.number,
        },
    )
}

// What stands for a variable.
fn image_of(alloc: Global, r: Replacement<'_>, x: Var) -> Result<Option<Term>, NoMemory>
    ensures { IfOk result (λ t. t ≡ image r.entry x) }
{
    match r {
        Replacement::BeforeCall(g, es) => pre_image(alloc, g, es, x),
        Replacement::BehindCall(g, destination, es) => post_image(alloc, g, destination, es, x),
        Replacement::AsOld => Ok(Some(renamed(alloc, old_kind(x.kind), x)?)),
        Replacement::AsPlain => Ok(Some(renamed(alloc, plain_kind(x.kind), x)?)),
    }
}

// ---- what is missing

fn is_result(kind: VarKind) -> bool
    ensures { result ≡ spec.is_result kind }
{
    match kind {
        VarKind::Plain(_) => false,
        VarKind::Temporary(_) => false,
        VarKind::Old(_) => false,
        VarKind::Returned => true,
    }
}

fn is_missing(alloc: Global, r: Replacement<'_>, but_result: bool, x: Var) -> Result<bool, NoMemory>
    ensures { IfOk result (λ b. b ≡ is_missing r.entry but_result x) }
{
    if but_result && is_result(x.kind) {
        return Ok(false);
    }
    let term = image_of(alloc, r, x)?;
    Ok(term.is_none())
}

/// The first of these variables that nothing stands for; the result may be left out.
pub fn first_missing(
    alloc: Global,
    r: Replacement<'_>,
    but_result: bool,
    xs: &[Var],
) -> Result<Option<Var>, NoMemory>
    ensures { IfOk result (λ x. x ≡ first_missing r.entry but_result xs.now) }
{
    for x in xs {
        if is_missing(alloc, r, but_result, *x)? {
            return Ok(Some(*x));
        }
    }
    Ok(None)
}

// ---- replacement

fn put_variable(
    alloc: Global,
    nodes: &mut Vec<Node>,
    x: Var,
    r: Replacement<'_>,
) -> Result<(), NoMemory>
    ensures { OnOk result (Puts (inner_term (terms_in r.entry x)) nodes.old nodes.new) }
{
    match image_of(alloc, r, x)? {
        Some(t) => put_term(nodes, &t),
        None => {
            nodes.push(Node::Term(TermNode::Variable(x)))?;
            Ok(())
        }
    }
}

fn put_image(
    alloc: Global,
    nodes: &mut Vec<Node>,
    node: &Node,
    r: Replacement<'_>,
) -> Result<(), NoMemory>
    ensures { OnOk result (Puts (replacement (terms_in r.entry) node.now) nodes.old nodes.new) }
{
    match node {
        Node::Term(TermNode::Variable(x)) => put_variable(alloc, nodes, *x, r),
        _ => {
            nodes.push(node.copy(alloc)?)?;
            Ok(())
        }
    }
}

/// The assertion in which each variable that something stands for is replaced.
pub fn replaced(alloc: Global, r: Replacement<'_>, a: &Assertion) -> Result<Assertion, NoMemory>
    ensures { IfOk result (λ b. b ≡ replaced r.entry a.now) }
{
    let mut nodes = Vec::new(alloc);
    let given = a.nodes();
    for node in given {
        put_image(alloc, &mut nodes, node, r)?;
    }
    Ok(Assertion::from_nodes(nodes))
}
