// The functions of the typed tree of a unit (C11 6.9).
ghost use Rattle.std.specs.Prelude.{◌∷◌, [], map};
ghost use Rattle.qs_syntax.specs.TreeOf.{decl_tree, function_tree};
ghost use Rattle.qs_syntax.specs.Trees.{function};
ghost use Rattle.qs_typed_units.specs.KnownPrograms.{functions_known};
ghost use Rattle.qs_typed_forms.specs.Results.{Makes};
ghost use Rattle.qs_typed_units.specs.TablesOf.{Finds, number_lists};
ghost use Rattle.qs_typed_trees.specs.TreeOf.{functions_tree};
ghost use Rattle.qs_typed.specs.UnitVariables.{variables_known};
ghost use Rattle.qs_typed.specs.UnitsOf.{AddsFunctions, AddsVariables, FindsFunction, FindsPlaces};
ghost use Rattle.qs_typed.specs.UnitsOf.{body_variables, variables_in};

use crate::functions::{function, named_scalar};
use qs_base::NoMemory;
use qs_syntax::{Decl, Function, Stmt};
use qs_typed_nodes::{Known, Locals};
use qs_typed_trees::TypedFunction;
use qs_typed_units::{
    Tables, each_once, nodes_of, parameters_nodes, places_of, statements_addressed,
    statements_nodes,
};
use std::alloc::Global;

/// The places of the parameters and locals of a function with this body.
pub fn body_places(
    alloc: Global,
    t: &Tables<'_>,
    f: &Function,
    body: &[Stmt],
) -> Result<Locals, NoMemory>
    ensures { FindsPlaces t.now f.now body.now result }
{
    let mut parameters = Vec::new(alloc);
    parameters_nodes(&f.parameters, &mut parameters)?;
    let mut nodes = Vec::new(alloc);
    statements_nodes(body, &mut nodes)?;
    let mut operands = Vec::new(alloc);
    statements_addressed(t.referents, body, &mut operands)?;
    let addressed = each_once(alloc, &operands)?;
    places_of(alloc, t.types, &addressed, &parameters, &nodes)
}

/// A function with this body.
fn body_typed(
    alloc: Global,
    t: &Tables<'_>,
    f: &Function,
    body: &[Stmt],
) -> Result<TypedFunction, NoMemory>
    ensures { FindsFunction t.now f.now body.now result }
{
    let locals = body_places(alloc, t, f, body)?;
    let k = Known {
        types: t.types,
        referents: t.referents,
        result: named_scalar(t.type_names, &f.result_type),
        env: t.env,
        type_names: t.type_names,
        headers: &t.headers,
        locals: &locals,
        statics: &t.statics,
        functions: &t.functions,
    };
    function(alloc, &k, f, body)
}

/// Adds a function, if it has a body.
#[tactic(auto, using(crate::proofs::Programs::none_more, crate::proofs::Programs::one_more))]
fn add_function(
    alloc: Global,
    t: &Tables<'_>,
    f: &Function,
    all: &mut Vec<TypedFunction>,
) -> Result<(), NoMemory>
    ensures { AddsFunctions t.now (function (function_tree f.now)) all.old all.new result }
{
    match &f.body {
        None => Ok(()),
        Some(body) => {
            all.push(body_typed(alloc, t, f, body)?)?;
            Ok(())
        }
    }
}

fn add_declaration(
    alloc: Global,
    t: &Tables<'_>,
    d: &Decl,
    all: &mut Vec<TypedFunction>,
) -> Result<(), NoMemory>
    ensures { AddsFunctions t.now (decl_tree d.now) all.old all.new result }
{
    match d {
        Decl::Struct(_) => Ok(()),
        Decl::Forward(_) => Ok(()),
        Decl::Typedef(_) => Ok(()),
        Decl::Function(f) => add_function(alloc, t, f, all),
        Decl::Variable(_) => Ok(()),
    }
}

/// The functions with a body, in order.
pub fn functions(alloc: Global, t: &Tables<'_>, ds: &[Decl]) -> Result<Vec<TypedFunction>, NoMemory>
    ensures { Finds functions_tree functions_known t.now (map decl_tree ds.now) result }
{
    let mut all = Vec::new(alloc);
    for d in ds {
        add_declaration(alloc, t, d, &mut all)?;
    }
    Ok(all)
}

// ---- variables

/// Adds the variables of a function, if it has a body.
#[tactic(auto, using(crate::proofs::Programs::without_body, crate::proofs::Programs::with_body))]
fn add_variables(
    alloc: Global,
    t: &Tables<'_>,
    f: &Function,
    all: &mut Vec<Vec<u32>>,
) -> Result<(), NoMemory>
    ensures { AddsVariables body_variables t.now (function_tree f.now) all.old all.new result }
{
    match &f.body {
        None => Ok(()),
        Some(body) => {
            let locals = body_places(alloc, t, f, body)?;
            all.push(nodes_of(alloc, &locals.variables)?)?;
            Ok(())
        }
    }
}

fn declaration_variables(
    alloc: Global,
    t: &Tables<'_>,
    d: &Decl,
    all: &mut Vec<Vec<u32>>,
) -> Result<(), NoMemory>
    ensures { AddsVariables variables_known t.now (decl_tree d.now ∷ []) all.old all.new result }
{
    match d {
        Decl::Struct(_) => Ok(()),
        Decl::Forward(_) => Ok(()),
        Decl::Typedef(_) => Ok(()),
        Decl::Function(f) => add_variables(alloc, t, f, all),
        Decl::Variable(_) => Ok(()),
    }
}

/// The variables of each function with a body, by the numbers of their nodes.
pub fn variables(alloc: Global, t: &Tables<'_>, ds: &[Decl]) -> Result<Vec<Vec<u32>>, NoMemory>
    ensures { Makes number_lists (variables_in t.now ds.now) result }
{
    let mut all = Vec::new(alloc);
    for d in ds {
        declaration_variables(alloc, t, d, &mut all)?;
    }
    Ok(all)
}
