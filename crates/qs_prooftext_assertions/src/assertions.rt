// Terms, conditions and assertions: one walk over their nodes, with a stack of what is still to be
// read.
ghost use Rattle.std.specs.Prelude.{◌≡◌, ◌++◌, ◌+◌, reverse, option_map, OnOk};
ghost use Rattle.std.specs.Option.{option_to_list};
ghost use Rattle.qs_prooftext_assertions.specs.Answers.{Stands};
ghost use Rattle.qs_prooftext_meaning.specs.Contexts.{setting_of};
ghost use Rattle.qs_prooftext_assertions.specs.Flattening.{sorts};
ghost use Rattle.qs_prooftext_meaning.specs.Kinds.{a_condition, a_definition_body, a_term, an_assertion};
ghost use Rattle.qs_prooftext_assertions.specs.Walking.{function_flat, name_flat, natural_flat, number_flat};
ghost use Rattle.qs_prooftext_assertions.specs.Walking.{symbol_flat, variable_flat, Shortens, Steps};
ghost use Rattle.qs_prooftext_assertions.specs.Walking.{GivesNodes, Opens, GivesNode, named_flat};
ghost use Rattle.qs_sexpr.specs.Trees.{Sexp};
ghost use Rattle.qs_prooftext_assertions.specs.Readers.{Reads};

use crate::leaves::find_old;
use crate::parts::{Part, behind, divisor_in, head_of, part_of};
use crate::rows::row_of_list;
use crate::sorts::{Parts, Sort};
use qs_assert::stack::put_all;
use qs_assert::{Assertion, AssertionNode, Cond, Node, Term, TermNode, Var};
use qs_base::{FnId, Name, NoMemory};
use qs_prooftext_meaning::{Context, TextFault, find_function, find_variable, is_defined};
use qs_sexpr::first_part;
use std::alloc::Global;

// ---- atoms

fn natural_node(at: u32, value: i64) -> Result<Option<Node>, TextFault>
    ensures { GivesNode (natural_flat at value) result }
{
    if value < 0 {
        Err(TextFault::UnknownForm(at))
    } else {
        Ok(Some(Node::Assertion(AssertionNode::Natural(value as u64))))
    }
}

/// The node that a number makes, or none where its list knows of it.
fn number_node(sort: Sort, at: u32, value: i64) -> Result<Option<Node>, TextFault>
    ensures { GivesNode (number_flat sort at value) result }
{
    match sort {
        Sort::Term => Ok(Some(Node::Term(TermNode::Number(value)))),
        Sort::Condition => Err(TextFault::UnknownForm(at)),
        Sort::Assertion => natural_node(at, value),
        Sort::Definition => natural_node(at, value),
        Sort::Divisor => {
            if value < 1 {
                Err(TextFault::UnknownForm(at))
            } else {
                Ok(None)
            }
        }
        Sort::OldVariable(_) => Err(TextFault::UnknownForm(at)),
        Sort::Function(_) => Err(TextFault::UnknownForm(at)),
        Sort::KnownName(_) => Err(TextFault::UnknownForm(at)),
        Sort::Name => Err(TextFault::UnknownForm(at)),
    }
}

fn variable_node(place: u32, found: Option<Var>) -> Result<Option<Node>, TextFault>
    ensures { GivesNode (variable_flat place found) result }
{
    match found {
        Some(x) => Ok(Some(Node::Term(TermNode::Variable(x)))),
        None => Err(TextFault::UnknownForm(place)),
    }
}

fn function_node(place: u32, found: Option<FnId>) -> Result<Option<Node>, TextFault>
    ensures { GivesNode (function_flat place (option_map (λ f. f.0) found)) result }
{
    match found {
        Some(f) => Ok(Some(Node::Assertion(AssertionNode::Cost(f)))),
        None => Err(TextFault::NoSuchFunction(place)),
    }
}

fn name_node(alloc: Global, word: &[u8]) -> Result<Option<Node>, TextFault>
    ensures { GivesNode (name_flat word.now) result }
{
    let name = Name::new(alloc, word)?;
    Ok(Some(Node::Assertion(AssertionNode::Named(name))))
}

fn known_name_node(
    alloc: Global,
    context: Context<'_>,
    whole: u32,
    word: &[u8],
) -> Result<Option<Node>, TextFault>
    ensures { GivesNode (named_flat (setting_of context.entry) whole word.now) result }
{
    if is_defined(context.names, context.functions, word) {
        name_node(alloc, word)
    } else {
        Err(TextFault::UnknownForm(whole))
    }
}

/// The node that a symbol makes.
fn symbol_node(
    alloc: Global,
    context: Context<'_>,
    sort: Sort,
    at: u32,
    word: &[u8],
) -> Result<Option<Node>, TextFault>
    ensures { GivesNode (symbol_flat (setting_of context.entry) sort at word.now) result }
{
    match sort {
        Sort::Term => variable_node(at, find_variable(context.words, word)),
        Sort::Condition => Err(TextFault::UnknownForm(at)),
        Sort::Assertion => Err(TextFault::UnknownForm(at)),
        Sort::Definition => Err(TextFault::UnknownForm(at)),
        Sort::Divisor => Err(TextFault::UnknownForm(at)),
        Sort::OldVariable(whole) => variable_node(whole, find_old(context, word)),
        Sort::Function(whole) => function_node(whole, find_function(context.functions, word)?),
        Sort::KnownName(whole) => known_name_node(alloc, context, whole, word),
        Sort::Name => name_node(alloc, word),
    }
}

// ---- lists

fn put_node(out: &mut Vec<Node>, made: Option<Node>) -> Result<(), NoMemory>
    ensures { OnOk result (out.new.items ≡ out.old.items ++ option_to_list made) }
{
    match made {
        Some(node) => {
            out.push(node)?;
            Ok(())
        }
        None => Ok(()),
    }
}

/// Puts the sorts of the parts on the stack, the first on top.
fn put_sorts(todo: &mut Vec<Sort>, parts: Parts, count: usize) -> Result<(), NoMemory>
    ensures { OnOk result (reverse todo.new.items ≡ sorts parts count ++ reverse todo.old.items) }
{
    match parts {
        Parts::Zero => {}
        Parts::One(a) => {
            todo.push(a)?;
        }
        Parts::Two(a, b) => {
            todo.push(b)?;
            todo.push(a)?;
        }
        Parts::Three(a, b, c) => {
            todo.push(c)?;
            todo.push(b)?;
            todo.push(a)?;
        }
        Parts::Many(a) => put_all(todo, a, count)?,
    }
    Ok(())
}

/// A list as its node and its head tell of it.
#[derive(Clone, Copy)]
pub struct Headed<'a> {
    /// where it stands
    pub at: u32,
    /// its head
    pub word: &'a [u8],
    /// how many parts it has, the head among them
    pub count: usize,
    /// the nodes of the other parts
    pub others: &'a [qs_sexpr::Node],
}

/// Puts the node of the list, and the sorts of the parts behind its head.
#[tactic(auto, using(crate::proofs::AssertionLaws::openings))]
fn open_list(
    context: Context<'_>,
    sort: Sort,
    list: Headed<'_>,
    todo: &mut Vec<Sort>,
    out: &mut Vec<Node>,
) -> Result<(), TextFault>
    ensures { Opens context.entry sort list.entry todo.old todo.new out.old out.new result }
{
    let behind = list.count.saturating_sub(1);
    let divisor = divisor_in(context.text, list.others);
    match row_of_list(context.result, sort, list.at, behind, divisor, list.word) {
        Some(row) => {
            put_node(out, row.node)?;
            put_sorts(todo, row.parts, behind)?;
            Ok(())
        }
        None => Err(TextFault::UnknownForm(list.at)),
    }
}

// ---- the walk

/// Reads the first node of the rest, and the head behind it where it is a list; the answer is what
/// is left.
fn next<'a>(
    alloc: Global,
    context: Context<'_>,
    rest: &'a [qs_sexpr::Node],
    todo: &mut Vec<Sort>,
    out: &mut Vec<Node>,
) -> Result<&'a [qs_sexpr::Node], TextFault>
    ensures goes { Steps context.entry rest.now todo.old todo.new out.old out.new result }
    ensures shorter { Shortens rest.now result }
{
    let Some(sort) = todo.pop() else {
        return Err(TextFault::UnknownForm(0));
    };
    let Some((tree, _others)) = first_part(rest) else {
        return Err(TextFault::UnknownForm(0));
    };
    match part_of(context.text, tree) {
        Part::Number(at, value) => {
            let made = number_node(sort, at, value)?;
            put_node(out, made)?;
            Ok(behind(rest, 1))
        }
        Part::Symbol(at, word) => {
            let made = symbol_node(alloc, context, sort, at, word)?;
            put_node(out, made)?;
            Ok(behind(rest, 1))
        }
        Part::List(at, count, parts) => {
            let Some((word, others)) = head_of(context.text, parts) else {
                return Err(TextFault::UnknownForm(at));
            };
            let list = Headed {
                at,
                word,
                count,
                others,
            };
            open_list(context, sort, list, todo, out)?;
            Ok(behind(rest, 2))
        }
    }
}

/// The nodes of what a list or atom means as one of this sort.
fn read_nodes(
    alloc: Global,
    context: Context<'_>,
    sort: Sort,
    nodes: &[qs_sexpr::Node],
) -> Result<Vec<Node>, TextFault>
    ensures { GivesNodes context.entry nodes.now sort result }
{
    let mut out = Vec::new(alloc);
    let mut todo = Vec::new(alloc);
    todo.push(sort)?;
    let mut rest = nodes;
    'trees: while !rest.is_empty() {
        rest = next(alloc, context, rest, &mut todo, &mut out)?;
    }
    Ok(out)
}

// ---- what is read

/// An assertion, or its first fault.
pub fn read_assertion(
    alloc: Global,
    context: Context<'_>,
    nodes: &[qs_sexpr::Node],
) -> Result<Assertion, TextFault>
    requires { (s : Sexp) × Stands context.text.now nodes.now s }
    ensures { Reads context.entry nodes.now an_assertion (λ a. a) result }
{
    let read = read_nodes(alloc, context, Sort::Assertion, nodes)?;
    Ok(Assertion::from_nodes(read))
}

/// The assertion for which a definition stands, or its first fault.
pub fn read_definition(
    alloc: Global,
    context: Context<'_>,
    nodes: &[qs_sexpr::Node],
) -> Result<Assertion, TextFault>
    requires { (s : Sexp) × Stands context.text.now nodes.now s }
    ensures { Reads context.entry nodes.now a_definition_body (λ a. a) result }
{
    let read = read_nodes(alloc, context, Sort::Definition, nodes)?;
    Ok(Assertion::from_nodes(read))
}

/// A condition, or its first fault.
pub fn read_condition(
    alloc: Global,
    context: Context<'_>,
    nodes: &[qs_sexpr::Node],
) -> Result<Cond, TextFault>
    requires { (s : Sexp) × Stands context.text.now nodes.now s }
    ensures { Reads context.entry nodes.now a_condition (λ c. c) result }
{
    let read = read_nodes(alloc, context, Sort::Condition, nodes)?;
    Ok(Cond::from_nodes(read))
}

/// A term, or its first fault.
pub fn read_term(
    alloc: Global,
    context: Context<'_>,
    nodes: &[qs_sexpr::Node],
) -> Result<Term, TextFault>
    requires { (s : Sexp) × Stands context.text.now nodes.now s }
    ensures { Reads context.entry nodes.now a_term (λ t. t) result }
{
    let read = read_nodes(alloc, context, Sort::Term, nodes)?;
    Ok(Term::from_inner(alloc, &read)?)
}
