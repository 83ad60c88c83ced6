// What is known of a unit as a whole (C11 6.9).
ghost use Rattle.std.specs.Prelude.{◌≡◌, ◌∷◌, [], IfOk, map};
ghost use Rattle.qs_meaning.specs.Units.{file_variables_in, functions_in};
ghost use Rattle.qs_syntax.specs.TreeOf.{decl_tree, function_tree, variable_tree};
ghost use Rattle.qs_typed_nodes.specs.KnownFunctions.{variables_nodes};
ghost use Rattle.qs_typed_units.specs.KnownPrograms.{each_once};
ghost use Rattle.qs_typed_forms.specs.Results.{Inserts};
ghost use Rattle.qs_typed_units.specs.TablesOf.{defined_name};

use crate::places::insert;
use indexmap::{IndexMap, IndexSet};
use qs_base::{Name, NoMemory};
use qs_memory::Scalar;
use qs_syntax::{Decl, Function, Variable};
use qs_typed_nodes::Statics;
use qs_types::{CType, Env, Referent, TypeNames};
use std::alloc::Global;

/// What is known of all functions of a unit.
#[derive(Drop)]
pub struct Tables<'a> {
    /// the types of expressions, and those of variables and parameters, at the numbers of their
    /// nodes
    pub types: &'a [Option<CType>],
    /// what the names of the nodes stand for
    pub referents: &'a [Option<Referent>],
    /// the structs
    pub env: &'a Env,
    /// the names of types
    pub type_names: &'a TypeNames,
    /// the scalar types of the parameters of each header, by the number of its node
    pub headers: IndexMap<u32, Vec<Scalar>>,
    /// what has a block from the beginning
    pub statics: Statics,
    /// the functions with a body
    pub functions: IndexSet<Name>,
}

// ---- functions

/// Adds the name of a function with a body, which isn't among the others.
#[tactic(auto, using(qs_typed_nodes::proofs::PlaceTables::name_last))]
fn note_body(alloc: Global, f: &Function, names: &mut IndexSet<Name>) -> Result<(), NoMemory>
    ensures { Inserts (defined_name (function_tree f.now)) names.old names.new result }
{
    match &f.body {
        None => Ok(()),
        Some(_) => {
            if names.contains(&f.name) {
                return Err(NoMemory);
            }
            names.insert(f.name.copy(alloc)?)?;
            Ok(())
        }
    }
}

fn declaration_functions(
    alloc: Global,
    d: &Decl,
    names: &mut IndexSet<Name>,
) -> Result<(), NoMemory>
    ensures { Inserts (functions_in (decl_tree d.now ∷ [])) names.old names.new result }
{
    match d {
        Decl::Struct(_) => Ok(()),
        Decl::Forward(_) => Ok(()),
        Decl::Typedef(_) => Ok(()),
        Decl::Function(f) => note_body(alloc, f, names),
        Decl::Variable(_) => Ok(()),
    }
}

/// The names of the functions with a body. Want of memory is the other answer.
pub fn functions_in(alloc: Global, ds: &[Decl]) -> Result<IndexSet<Name>, NoMemory>
    ensures { IfOk result (λ names. names.keys ≡ functions_in (map decl_tree ds.now)) }
{
    let mut names = IndexSet::new(alloc);
    for d in ds {
        declaration_functions(alloc, d, &mut names)?;
    }
    Ok(names)
}

// ---- variables of file scope

fn insert_variables(vs: &[Variable], nodes: &mut IndexSet<u32>) -> Result<(), NoMemory>
    ensures { Inserts (variables_nodes (map variable_tree vs.now)) nodes.old nodes.new result }
{
    for v in vs {
        insert(nodes, v.declarator.node.id)?;
    }
    Ok(())
}

fn declaration_variables(d: &Decl, nodes: &mut IndexSet<u32>) -> Result<(), NoMemory>
    ensures { Inserts (file_variables_in (decl_tree d.now ∷ [])) nodes.old nodes.new result }
{
    match d {
        Decl::Struct(_) => Ok(()),
        Decl::Forward(_) => Ok(()),
        Decl::Typedef(_) => Ok(()),
        Decl::Function(_) => Ok(()),
        Decl::Variable(d) => insert_variables(&d.variables, nodes),
    }
}

/// The variables of file scope, by the numbers of their nodes. Want of memory is the other answer.
pub fn file_variables_in(alloc: Global, ds: &[Decl]) -> Result<IndexSet<u32>, NoMemory>
    ensures { IfOk result (λ nodes. nodes.keys ≡ file_variables_in (map decl_tree ds.now)) }
{
    let mut nodes = IndexSet::new(alloc);
    for d in ds {
        declaration_variables(d, &mut nodes)?;
    }
    Ok(nodes)
}

// ---- sets of nodes

/// Each node once, in the order in which they come first. Want of memory is the other answer.
pub fn each_once(alloc: Global, nodes: &[u32]) -> Result<IndexSet<u32>, NoMemory>
    ensures { IfOk result (λ set. set.keys ≡ each_once [] nodes.now) }
{
    let mut set = IndexSet::new(alloc);
    for node in nodes {
        set.insert(*node)?;
    }
    Ok(set)
}

/// The nodes of a set, in order. Want of memory is the other answer.
pub fn nodes_of(alloc: Global, set: &IndexSet<u32>) -> Result<Vec<u32>, NoMemory>
    ensures { IfOk result (λ nodes. nodes.items ≡ (set.now).keys) }
{
    let mut nodes = Vec::new(alloc);
    for i in 0..set.len() {
        nodes.push(set[i])?;
    }
    Ok(nodes)
}
