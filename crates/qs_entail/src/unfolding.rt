// A name stands for the body of its definition.
ghost use Rattle.std.specs.Prelude.{◌≡◌, ◌++◌, IfOk, OnOk};
ghost use Rattle.qs_entail.specs.Answers.{FindsAs, FollowsAs};
ghost use Rattle.qs_entail.specs.Faults as faults;
ghost use Rattle.qs_entail.specs.Placing.{placed};

use crate::Stop;
use qs_assert::{Assertion, AssertionNode, AssertionView, Define, Node, put_nodes};
use qs_base::{Name, NoMemory};
use std::alloc::Global;

/// The body of the first definition of a name.
pub fn defined<'a>(defines: &'a [Define], name: &Name) -> Option<&'a Assertion>
    ensures { FindsAs (λ body. body.now) result (faults.definition defines.now name.now) }
{
    for define in defines {
        if *name == define.name {
            return Some(&define.body);
        }
    }
    None
}

/// The body of the first definition of a name; it breaks where there is none.
pub fn definition<'a>(defines: &'a [Define], name: &Name) -> Result<&'a Assertion, Stop>
    ensures { FollowsAs (λ body. body.now) result (faults.definition defines.now name.now) }
{
    match defined(defines, name) {
        Some(body) => Ok(body),
        None => Err(Stop::Breaks),
    }
}

/// Puts the node, or the nodes of the body where the node is the name.
fn put_placed(
    alloc: Global,
    list: &mut Vec<Node>,
    node: &Node,
    name: &Name,
    body: &Assertion,
) -> Result<(), NoMemory>
    ensures { OnOk result (list.new.items ≡ list.old.items ++ placed name.now body.now node.now) }
{
    match node {
        Node::Assertion(AssertionNode::Named(m)) if *name == *m => {
            put_nodes(alloc, list, body.nodes())
        }
        _ => {
            list.push(node.copy(alloc)?)?;
            Ok(())
        }
    }
}

/// The assertion with the body in the place of the name.
pub fn unfolded(
    alloc: Global,
    name: &Name,
    body: &Assertion,
    a: &AssertionView<'_>,
) -> Result<Assertion, NoMemory>
    ensures { IfOk result (λ r. r ≡ faults.unfolded name.now body.now a.now) }
{
    let mut nodes = Vec::new(alloc);
    let list = a.nodes();
    for node in list {
        put_placed(alloc, &mut nodes, node, name, body)?;
    }
    Ok(Assertion::from_nodes(nodes))
}
