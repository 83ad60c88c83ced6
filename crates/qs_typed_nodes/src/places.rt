// Which variable or block a declaration has, and what is known at the nodes of a unit.
ghost use Rattle.std.specs.Prelude.{◌≡◌, ◌+◌, IfOk};
ghost use Rattle.qs_meaning.specs.Names.{file_variable_object, function_number, local_lvalue};
ghost use Rattle.qs_meaning.specs.Names.{place_among, text_object};
ghost use Rattle.qs_types.specs.Placed.{is_one_of};
ghost use Rattle.qs_typed_nodes.specs.PlacesOf.{locals_tree, statics_tree};
ghost use Rattle.qs_typed_forms.specs.Results.{Equals};
ghost use Rattle.qs_typed_trees.specs.TreeOf.{lvalue_tree, object_tree};

use indexmap::IndexSet;
use qs_base::{Name, NoMemory, count};
use qs_typed_trees::{Expression, Lvalue, Object};
use std::alloc::Global;

/// The variables of a function, and its locals and parameters that are placed, by the numbers of
/// their nodes.
#[derive(Drop)]
pub struct Locals {
    /// the parameters and then the plain locals
    pub variables: IndexSet<u32>,
    /// the placed ones
    pub placed: IndexSet<u32>,
}

/// What has a block from the beginning, by the numbers of the nodes.
#[derive(Drop)]
pub struct Statics {
    /// the variables of file scope
    pub variables: IndexSet<u32>,
    /// the texts that are blocks
    pub texts: IndexSet<u32>,
}

/// The place of a node among others, if it is one of them.
#[tactic(auto, using(crate::proofs::PlaceTables::place_found))]
fn place_among(node: u32, nodes: &IndexSet<u32>) -> Result<u32, NoMemory>
    ensures { IfOk result (λ k. place_among node (nodes.now).keys ≡ k) }
{
    match nodes.get_index_of(&node) {
        None => Err(NoMemory),
        Some(i) => count(i),
    }
}

#[tactic(auto, using(crate::proofs::PlaceTables::one_of))]
fn is_one_of(node: u32, nodes: &IndexSet<u32>) -> bool
    ensures { result ≡ is_one_of node (nodes.now).keys }
{
    nodes.contains(&node)
}

/// A placed local is a block of the call, any other a variable of the call.
pub fn local_lvalue(alloc: Global, locals: &Locals, node: u32) -> Result<Lvalue, NoMemory>
    ensures { Equals lvalue_tree (local_lvalue (locals_tree locals.now) node) result }
{
    if is_one_of(node, &locals.placed) {
        let k = place_among(node, &locals.placed)?;
        let address = Expression::PointerTo(Object::Local(k));
        Ok(Lvalue::Object(Box::new(alloc, address)?))
    } else {
        let x = place_among(node, &locals.variables)?;
        Ok(Lvalue::Variable(x))
    }
}

/// The block of a variable of file scope.
pub fn file_variable_object(statics: &Statics, node: u32) -> Result<Object, NoMemory>
    ensures { Equals object_tree (file_variable_object (statics_tree statics.now) node) result }
{
    let k = place_among(node, &statics.variables)?;
    Ok(Object::Static(k))
}

/// The block of a text (C11 6.4.5p6).
pub fn text_object(statics: &Statics, node: u32) -> Result<Object, NoMemory>
    ensures { Equals object_tree (text_object (statics_tree statics.now) node) result }
{
    let k = place_among(node, &statics.texts)?;
    let at = count(statics.variables.len() + k as usize)?;
    Ok(Object::Static(at))
}

/// The number of a function with a body.
#[tactic(auto, using(crate::proofs::PlaceTables::function_found))]
pub fn function_number(f: &Name, functions: &IndexSet<Name>) -> Result<u32, NoMemory>
    ensures { IfOk result (λ k. function_number f.now ((functions.now).keys) ≡ k) }
{
    match functions.get_index_of(f) {
        None => Err(NoMemory),
        Some(i) => count(i),
    }
}
