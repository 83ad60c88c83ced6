// The lists of a whole file: definitions and entries.
ghost use Rattle.std.specs.Prelude.{◌≡◌, IfOk, bytes_eq};
ghost use Rattle.qs_core.specs.UnitTrees.{unit_tree};
ghost use Rattle.qs_entail.specs.View.{cert_tree};
ghost use Rattle.qs_triples.specs.TreeOf.{derivation_tree, proofs_tree};
ghost use Rattle.qs_triples.specs.Entries as entries;
ghost use Rattle.qs_prooftext_assertions.specs.Answers.{StandAll, Stands};
ghost use Rattle.qs_prooftext_meaning.specs.Contexts.{setting_of};
ghost use Rattle.qs_prooftext_meaning.specs.Kinds.{a_certificate, a_definition_body, a_derivation};
ghost use Rattle.qs_prooftext_meaning.specs.Kinds.{an_assertion};
ghost use Rattle.qs_prooftext_meaning.specs.Settings as settings;
ghost use Rattle.qs_prooftext.specs.Tops as spec;
ghost use Rattle.qs_prooftext.specs.Tops.{entry_parts_mean, first_word, parts_view, proofs_so_far};
ghost use Rattle.qs_prooftext.specs.Tops.{FindsOnly, FindsFirstOnly, ReadsOnly, define_of};
ghost use Rattle.qs_prooftext.specs.Tops.{entry_of, entry_in, Adds, AddsHeaded, AddsTop};
ghost use Rattle.qs_prooftext.specs.Tops.{ReadsEntry, meaning_of};
ghost use Rattle.qs_sexpr.specs.Trees.{Sexp, Sexps};
ghost use Rattle.qs_prooftext_assertions.specs.Readers.{GivesParts, ReadsParts, ReadsFirst};

use crate::certificates::read_certificate;
use crate::derivations::read_derivation;
use qs_assert::{Assertion, Define};
use qs_base::{FnId, Name};
use qs_core::{CoreFunction, CoreUnit};
use qs_entail::Certificate;
use qs_prooftext_assertions::{
    Part, after_first, head_of, part_of, read_assertion, read_definition,
};
use qs_prooftext_meaning::{
    Context, Definitions, Names, TextFault, find_function, is_defined, returned, words_of,
};
use qs_sexpr::{Node, first_part};
use qs_triples::{Derivation, FunctionProof, Proofs, Spec};
use std::alloc::Global;

/// A file: its text, the unit, and which of its functions are open.
#[derive(Clone, Copy)]
pub struct File<'a> {
    /// the text
    pub text: &'a [u8],
    /// the unit
    pub unit: &'a CoreUnit,
    /// whether each of its functions is open
    pub is_open: &'a [bool],
}

/// What the lists of a file so far are.
#[derive(Drop)]
pub struct ProofsSoFar {
    /// the definitions
    pub definitions: Definitions,
    /// the functions that have a specification
    pub functions: Vec<FunctionProof>,
}

// ---- definitions

fn in_definition<'a>(file: File<'a>) -> Context<'a>
    ensures text { result.text.now ≡ file.entry.text.now }
    ensures setting { setting_of result ≡ settings.in_definition (unit_tree file.entry.unit.now) }
{
    Context {
        text: file.text,
        functions: &file.unit.functions,
        words: &[],
        result: None,
        names: None,
    }
}

/// The assertion for which a definition stands, in the first of these parts.
#[tactic(auto, using(qs_prooftext_assertions::proofs::FirstLaws::first_laws))]
fn first_definition(
    alloc: Global,
    context: Context<'_>,
    parts: &[Node],
) -> Result<Assertion, TextFault>
    requires { (ss : Sexps) × StandAll context.text.now parts.now ss }
    ensures { ReadsFirst context.entry parts.now a_definition_body (λ a. a) result }
{
    match first_part(parts) {
        Some((first, _others)) => read_definition(alloc, context, first),
        None => Err(TextFault::UnknownForm(0)),
    }
}

/// `(define word ..)`
fn define(
    alloc: Global,
    file: File<'_>,
    at: u32,
    word: &[u8],
    parts: &[Node],
    proofs: &mut ProofsSoFar,
) -> Result<(), TextFault>
    requires { (ss : Sexps) × StandAll file.text.now parts.now ss }
    ensures { Adds file.entry parts.now (define_of at word.now) proofs.old proofs.new result }
{
    let names = Names {
        is_open: file.is_open,
        definitions: &proofs.definitions,
    };
    if is_defined(Some(names), &file.unit.functions, word) {
        return Err(TextFault::Duplicate(at));
    }
    let body = first_definition(alloc, in_definition(file), parts)?;
    let name = Name::new(alloc, word)?;
    proofs.definitions.add(alloc, Define { name, body })?;
    Ok(())
}

// ---- entries

/// The nodes of the only part of a list with this head.
fn inner<'a>(text: &'a [u8], head: &[u8], nodes: &'a [Node]) -> Result<&'a [Node], TextFault>
    ensures { FindsOnly text.now head.now nodes.now result }
{
    match part_of(text, nodes) {
        Part::Number(at, _) => Err(TextFault::UnknownForm(at)),
        Part::Symbol(at, _) => Err(TextFault::UnknownForm(at)),
        Part::List(at, count, parts) => match head_of(text, parts) {
            None => Err(TextFault::UnknownForm(at)),
            Some((word, others)) => {
                if head == word && count == 2 {
                    Ok(others)
                } else {
                    Err(TextFault::UnknownForm(at))
                }
            }
        },
    }
}

fn first_inner<'a>(text: &'a [u8], head: &[u8], parts: &'a [Node]) -> Result<&'a [Node], TextFault>
    ensures { FindsFirstOnly text.now head.now parts.now result }
{
    match first_part(parts) {
        Some((first, _others)) => inner(text, head, first),
        None => Err(TextFault::UnknownForm(0)),
    }
}

fn assertion_in(
    alloc: Global,
    context: Context<'_>,
    head: &[u8],
    parts: &[Node],
) -> Result<Assertion, TextFault>
    requires { (ss : Sexps) × StandAll context.text.now parts.now ss }
    ensures { ReadsOnly context.entry head.now parts.now an_assertion (λ a. a) result }
{
    read_assertion(alloc, context, first_inner(context.text, head, parts)?)
}

fn certificate_in(
    alloc: Global,
    context: Context<'_>,
    head: &[u8],
    parts: &[Node],
) -> Result<Certificate, TextFault>
    requires { (ss : Sexps) × StandAll context.text.now parts.now ss }
    ensures { ReadsOnly context.entry head.now parts.now a_certificate cert_tree result }
{
    read_certificate(alloc, context, first_inner(context.text, head, parts)?)
}

fn derivation_in(
    alloc: Global,
    context: Context<'_>,
    head: &[u8],
    parts: &[Node],
) -> Result<Derivation, TextFault>
    requires { (ss : Sexps) × StandAll context.text.now parts.now ss }
    ensures { ReadsOnly context.entry head.now parts.now a_derivation derivation_tree result }
{
    read_derivation(alloc, context, first_inner(context.text, head, parts)?)
}

fn has_entry(proofs: &ProofsSoFar, f: FnId) -> bool
    ensures { result ≡ entries.has_entry (proofs_so_far proofs.now) f.0 }
{
    for e in &proofs.functions {
        if e.function.0 == f.0 {
            return true;
        }
    }
    false
}

/// `.. (pre A) (post A) (entry CERT) (body NODE)`
fn read_entry(
    alloc: Global,
    context: Context<'_>,
    f: FnId,
    parts: &[Node],
) -> Result<FunctionProof, TextFault>
    requires { (ss : Sexps) × StandAll context.text.now parts.now ss }
    ensures parts { ReadsParts context.entry parts.now entry_parts_mean parts_view result }
    ensures function { IfOk result (λ e. e.function ≡ f) }
{
    let pre = assertion_in(alloc, context, b"pre", parts)?;
    let behind_pre = after_first(parts);
    let post = assertion_in(alloc, context, b"post", behind_pre)?;
    let behind_post = after_first(behind_pre);
    let entry = certificate_in(alloc, context, b"entry", behind_post)?;
    let body = derivation_in(alloc, context, b"body", after_first(behind_post))?;
    Ok(FunctionProof {
        function: f,
        spec: Spec { pre, post },
        entry,
        body,
    })
}

fn new_entry(
    alloc: Global,
    file: File<'_>,
    f: FnId,
    function: &CoreFunction,
    parts: &[Node],
    proofs: &ProofsSoFar,
) -> Result<FunctionProof, TextFault>
    requires { (ss : Sexps) × StandAll file.text.now parts.now ss }
    ensures parts { ReadsEntry file.entry proofs.now function.now parts.now result }
    ensures function { IfOk result (λ e. e.function ≡ f) }
{
    let words = words_of(alloc, function)?;
    let context = Context {
        text: file.text,
        functions: &file.unit.functions,
        words: &words,
        result: returned(function.result_type),
        names: Some(Names {
            is_open: file.is_open,
            definitions: &proofs.definitions,
        }),
    };
    read_entry(alloc, context, f, parts)
}

fn known_entry(
    alloc: Global,
    file: File<'_>,
    at: u32,
    f: FnId,
    function: &CoreFunction,
    parts: &[Node],
    proofs: &mut ProofsSoFar,
) -> Result<(), TextFault>
    requires { (ss : Sexps) × StandAll file.text.now parts.now ss }
    ensures { Adds file.entry parts.now (entry_in at f function.now) proofs.old proofs.new result }
{
    if has_entry(proofs, f) {
        return Err(TextFault::Duplicate(at));
    }
    let e = new_entry(alloc, file, f, function, parts, proofs)?;
    proofs.functions.push(e)?;
    Ok(())
}

/// `(function word ..)`
fn entry(
    alloc: Global,
    file: File<'_>,
    at: u32,
    word: &[u8],
    parts: &[Node],
    proofs: &mut ProofsSoFar,
) -> Result<(), TextFault>
    requires { (ss : Sexps) × StandAll file.text.now parts.now ss }
    ensures { Adds file.entry parts.now (entry_of at word.now) proofs.old proofs.new result }
{
    match find_function(&file.unit.functions, word)? {
        None => Err(TextFault::NoSuchFunction(at)),
        Some(f) => match file.unit.functions.get(f.0 as usize) {
            None => Err(TextFault::NoSuchFunction(at)),
            Some(function) => known_entry(alloc, file, at, f, function, parts, proofs),
        },
    }
}

// ---- the file

/// The symbol that is the first of these parts, or the place of what is none.
fn first_symbol<'a>(text: &'a [u8], parts: &'a [Node]) -> Result<&'a [u8], TextFault>
    ensures { GivesParts text.now parts.now first_word (λ word. word.now) result }
{
    match first_part(parts) {
        Some((first, _others)) => match part_of(text, first) {
            Part::Number(place, _) => Err(TextFault::UnknownForm(place)),
            Part::Symbol(_, word) => Ok(word),
            Part::List(place, _, _) => Err(TextFault::UnknownForm(place)),
        },
        None => Err(TextFault::UnknownForm(0)),
    }
}

fn definition(
    alloc: Global,
    file: File<'_>,
    at: u32,
    others: &[Node],
    proofs: &mut ProofsSoFar,
) -> Result<(), TextFault>
    requires { (ss : Sexps) × StandAll file.text.now others.now ss }
    ensures { Adds file.entry others.now (λ s. spec.definition s at) proofs.old proofs.new result }
{
    let name = first_symbol(file.text, others)?;
    define(alloc, file, at, name, after_first(others), proofs)
}

fn function(
    alloc: Global,
    file: File<'_>,
    at: u32,
    others: &[Node],
    proofs: &mut ProofsSoFar,
) -> Result<(), TextFault>
    requires { (ss : Sexps) × StandAll file.text.now others.now ss }
    ensures { Adds file.entry others.now (λ s. spec.function s at) proofs.old proofs.new result }
{
    let name = first_symbol(file.text, others)?;
    entry(alloc, file, at, name, after_first(others), proofs)
}

fn is_word(head: &[u8], word: &[u8]) -> bool
    ensures { result ≡ bytes_eq head.now word.now }
{
    head == word
}

#[tactic(auto, using(crate::proofs::TopLaws::headed_tops))]
fn headed_top(
    alloc: Global,
    file: File<'_>,
    at: u32,
    head: &[u8],
    count: usize,
    others: &[Node],
    proofs: &mut ProofsSoFar,
) -> Result<(), TextFault>
    requires { (ss : Sexps) × StandAll file.text.now others.now ss }
    ensures { AddsHeaded file.entry at head.now count others.now proofs.old proofs.new result }
{
    if is_word(head, b"define") {
        if count == 3 {
            definition(alloc, file, at, others, proofs)
        } else {
            Err(TextFault::UnknownForm(at))
        }
    } else if is_word(head, b"function") {
        if count == 6 {
            function(alloc, file, at, others, proofs)
        } else {
            Err(TextFault::UnknownForm(at))
        }
    } else {
        Err(TextFault::UnknownForm(at))
    }
}

#[tactic(auto, using(crate::proofs::TopLaws::top_lists))]
fn read_top(
    alloc: Global,
    file: File<'_>,
    nodes: &[Node],
    proofs: &mut ProofsSoFar,
) -> Result<(), TextFault>
    requires { (s : Sexp) × Stands file.text.now nodes.now s }
    ensures { AddsTop file.entry nodes.now proofs.old proofs.new result }
{
    match part_of(file.text, nodes) {
        Part::Number(at, _) => Err(TextFault::UnknownForm(at)),
        Part::Symbol(at, _) => Err(TextFault::UnknownForm(at)),
        Part::List(at, count, parts) => match head_of(file.text, parts) {
            None => Err(TextFault::UnknownForm(at)),
            Some((head, others)) => headed_top(alloc, file, at, head, count, others, proofs),
        },
    }
}

/// The proofs that the lists and atoms of a file are.
pub fn read_tops(alloc: Global, file: File<'_>, nodes: &[Node]) -> Result<Proofs, TextFault>
    requires { (ss : Sexps) × StandAll file.text.now nodes.now ss }
    ensures { GivesParts file.entry.text.now nodes.now (meaning_of file.entry) proofs_tree result }
{
    let mut proofs = ProofsSoFar {
        definitions: Definitions::new(alloc),
        functions: Vec::new(alloc),
    };
    let mut rest = nodes;
    'tops: while let Some((first, others)) = first_part(rest) {
        read_top(alloc, file, first, &mut proofs)?;
        rest = others;
    }
    Ok(Proofs {
        defines: proofs.definitions.into_defines(),
        functions: proofs.functions,
    })
}
