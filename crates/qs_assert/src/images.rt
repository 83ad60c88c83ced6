// Variables are replaced by terms, all at once.
ghost use Rattle.std.specs.Prelude.{◌≡◌, ◌++◌, IfOk, MatchOption, is_none};
ghost use Rattle.std.specs.List.{flat_map};
ghost use Rattle.qs_assert.specs.Images.{assertion_image};
ghost use Rattle.qs_assert.specs.Replacing.{image_nodes, nodes_for};
ghost use Rattle.qs_assert.specs.Simultaneous.{images, images_in, first_lacking, substituted};
ghost use Rattle.qs_assert.specs.Simultaneous.{HasImage, HasNoImage};
ghost use Rattle.qs_assert.specs.Substitution.{in_assertion, HasValueWith};
ghost use Rattle.qs_assert.specs.Variables.{node_variables};

use crate::listing::put_term;
use crate::{Assertion, Node, Term, TermNode, Var};
use qs_base::NoMemory;
use std::alloc::Global;

/// A term that stands for a variable.
#[derive(Debug, Drop)]
pub struct Image {
    /// The variable.
    pub variable: Var,
    /// What stands for it.
    pub term: Term,
}

/// What becomes of the variables that are not in a list of images.
#[derive(Clone, Copy)]
pub enum Others {
    /// They stay.
    Stay,
    /// They have no image.
    AreMissing,
}

/// What a substitution gives.
#[derive(Drop)]
pub enum Substituted {
    /// The assertion with the images.
    Whole(Assertion),
    /// The first variable that has no image.
    Missing(Var),
}

/// The first image of a variable.
fn image_in<'a>(list: &'a [Image], x: Var) -> Option<&'a Term>
    ensures { MatchOption result (HasNoImage list.now x) (λ t. HasImage list.now x t.now) }
{
    for image in list {
        if x.same(image.variable) {
            return Some(&image.term);
        }
    }
    None
}

fn has_none(list: &[Image], others: Others, x: Var) -> bool
    ensures { result ≡ is_none (images list.now others x) }
{
    match image_in(list, x) {
        Some(_) => false,
        None => match others {
            Others::Stay => false,
            Others::AreMissing => true,
        },
    }
}

/// The variable of a node, if it has no image.
fn missing_at(list: &[Image], others: Others, node: &Node) -> Option<Var>
    ensures { result ≡ first_lacking (images list.now others) (node_variables node.now) }
{
    match node {
        Node::Term(TermNode::Variable(x)) if has_none(list, others, *x) => Some(*x),
        _ => None,
    }
}

fn first_without(list: &[Image], others: Others, nodes: &[Node]) -> Option<Var>
    ensures { result ≡ first_lacking (images list.now others) (flat_map node_variables nodes.now) }
{
    for node in nodes {
        let missing = missing_at(list, others, node);
        if missing.is_some() {
            return missing;
        }
    }
    None
}

fn put_variable(nodes: &mut Vec<Node>, x: Var, list: &[Image]) -> Result<(), NoMemory>
    ensures { IfOk result (λ _. nodes.new.items ≡ nodes.old.items ++ image_nodes list.now x) }
{
    match image_in(list, x) {
        Some(t) => put_term(nodes, t),
        None => {
            nodes.push(Node::Term(TermNode::Variable(x)))?;
            Ok(())
        }
    }
}

/// Puts the node, or the nodes of the variable's image.
fn put_image(
    alloc: Global,
    nodes: &mut Vec<Node>,
    node: &Node,
    list: &[Image],
) -> Result<(), NoMemory>
    ensures { IfOk result (λ _. nodes.new.items ≡ nodes.old.items ++ nodes_for list.now node.now) }
{
    match node {
        Node::Term(TermNode::Variable(x)) => put_variable(nodes, *x, list),
        _ => {
            nodes.push(node.copy(alloc)?)?;
            Ok(())
        }
    }
}

/// The assertion with the images of a list, where the other variables stay.
fn with_images(alloc: Global, a: &Assertion, list: &[Image]) -> Result<Assertion, NoMemory>
    ensures { IfOk result (λ b. b ≡ assertion_image (images_in list.now) a.now) }
{
    let mut nodes = Vec::new(alloc);
    let given = a.nodes();
    for node in given {
        put_image(alloc, &mut nodes, node, list)?;
    }
    Ok(Assertion::from_nodes(nodes))
}

/// The assertion with the images in the places of their variables, all at once, or the first
/// variable without an image. Of two images of one variable the first counts.
pub fn substitute_all(
    alloc: Global,
    a: &Assertion,
    list: &[Image],
    others: Others,
) -> Result<Substituted, NoMemory>
    ensures { IfOk result (λ given. given ≡ substituted (images list.now others) a.now) }
{
    match first_without(list, others, a.nodes()) {
        Some(x) => Ok(Substituted::Missing(x)),
        None => Ok(Substituted::Whole(with_images(alloc, a, list)?)),
    }
}

/// The assertion with the term `t` in the place of the variable `x`.
pub fn substitute(alloc: Global, a: &Assertion, x: &Var, t: &Term) -> Result<Assertion, NoMemory>
    ensures tree { IfOk result (λ b. b ≡ in_assertion x.now t.now a.now) }
    ensures value { IfOk result (λ b. HasValueWith x.now t.now a.now b) }
{
    let image = Image {
        variable: *x,
        term: t.copy(alloc)?,
    };
    let replaced = with_images(alloc, a, &[image])?;
    Ok(replaced)
}
