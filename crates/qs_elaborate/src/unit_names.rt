// The names of the functions of a unit and of their variables.
ghost use Rattle.std.specs.Prelude.{◌≡◌, [], IfOk, map, slice_index_or};
ghost use Rattle.qs_syntax.specs.TreeOf.{decl_tree};
ghost use Rattle.qs_typed_units.specs.TablesOf.{numbers};
ghost use Rattle.qs_elaborate.specs.NamesOf.{names_of};
ghost use Rattle.qs_elaborate.specs.UnitNames.{declaration_named};
ghost use Rattle.qs_elaborate.specs.UnitNamesOf.{parameter_names, names_with, function_named};
ghost use Rattle.qs_elaborate.specs.UnitNamesOf.{names_in, AddsNames};

use crate::declaring::{function_declares, parameter_name};
use crate::names::FunctionNames;
use crate::naming::variable_names;
use qs_base::{Name, NoMemory};
use qs_syntax::{Decl, Function, Parameter, Stmt};
use std::alloc::Global;

fn parameter_names(alloc: Global, ps: &[Parameter]) -> Result<Vec<Name>, NoMemory>
    ensures { IfOk result (λ ns. ns.items ≡ parameter_names ps.now) }
{
    let mut names = Vec::new(alloc);
    for p in ps {
        names.push(parameter_name(alloc, &p.name)?)?;
    }
    Ok(names)
}

// The names of a function with this body, whose variables stand at these nodes.
fn names_with(
    alloc: Global,
    f: &Function,
    body: &[Stmt],
    nodes: &[u32],
) -> Result<FunctionNames, NoMemory>
    ensures { IfOk result (λ n. names_of n ≡ names_with f.now body.now nodes.now) }
{
    let parameters = parameter_names(alloc, &f.parameters)?;
    let declared = function_declares(alloc, f, body)?;
    let variables = variable_names(alloc, &declared, nodes)?;
    Ok(FunctionNames {
        parameters,
        variables,
    })
}

fn nodes_at(all: &[Vec<u32>], i: usize) -> &[u32]
    ensures { result.now ≡ slice_index_or (map numbers all.now) i [] }
{
    match all.get(i) {
        None => &[],
        Some(nodes) => nodes,
    }
}

// The names of a function, if it has a body.
fn put_function(
    alloc: Global,
    names: &mut Vec<FunctionNames>,
    nodes: &[u32],
    f: &Function,
) -> Result<(), NoMemory>
    ensures { AddsNames (function_named nodes.now f.now) names.old names.new result }
{
    match &f.body {
        None => Ok(()),
        Some(body) => {
            names.push(names_with(alloc, f, body, nodes)?)?;
            Ok(())
        }
    }
}

fn put_declaration(
    alloc: Global,
    names: &mut Vec<FunctionNames>,
    nodes: &[u32],
    d: &Decl,
) -> Result<(), NoMemory>
    ensures { AddsNames (declaration_named nodes.now (decl_tree d.now)) names.old names.new result }
{
    match d {
        Decl::Struct(_) => Ok(()),
        Decl::Forward(_) => Ok(()),
        Decl::Typedef(_) => Ok(()),
        Decl::Function(f) => put_function(alloc, names, nodes, f),
        Decl::Variable(_) => Ok(()),
    }
}

/// The names of the functions with a body, where the variables of each stand at these nodes.
pub fn unit_names(
    alloc: Global,
    ds: &[Decl],
    all: &[Vec<u32>],
) -> Result<Vec<FunctionNames>, NoMemory>
    ensures { IfOk result (λ ns. map names_of ns.items ≡ names_in all.now ds.now) }
{
    let mut names = Vec::new(alloc);
    for d in ds {
        let nodes = nodes_at(all, names.len());
        put_declaration(alloc, &mut names, nodes, d)?;
    }
    Ok(names)
}
