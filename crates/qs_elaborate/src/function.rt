// Functions in core.
ghost use Rattle.std.specs.Prelude.{◌≡◌, IfOk, slice_index_or, []};
ghost use Rattle.qs_core.specs.TreeOf.{variable_tree};
ghost use Rattle.qs_elaborate_bodies.specs.Units.{named_parameters, end_of_body};
ghost use Rattle.qs_elaborate.specs.FunctionOf.{parameter_trees, variable_trees, variable_at};
ghost use Rattle.qs_elaborate.specs.FunctionOf.{named_variables, function_with, function_at};
ghost use Rattle.qs_elaborate.specs.FunctionOf.{function_trees, functions, GivesFunction};
ghost use Rattle.qs_elaborate_bodies.specs.Results.{Adds};

use crate::names::{FunctionNames, VariableName};
use qs_base::{Name, NoMemory};
use qs_calls::Parameter;
use qs_core::{CoreExpr, CoreFunction, CoreParameter, CoreStmt, CoreVariable};
use qs_elaborate_bodies::{push, statements};
use qs_memory::Scalar;
use qs_typed_trees::TypedFunction;
use std::alloc::Global;

// ---- names; every parameter and every variable has one

fn name_at(alloc: Global, names: &[Name], i: usize) -> Result<Name, NoMemory>
    ensures { IfOk result (λ n. n ≡ slice_index_or names.now i []) }
{
    match names.get(i) {
        None => Name::new(alloc, b""),
        Some(name) => name.copy(alloc),
    }
}

fn named_parameters(
    alloc: Global,
    names: &[Name],
    parameters: &[Parameter],
) -> Result<Vec<CoreParameter>, NoMemory>
    ensures { IfOk result (λ ps. parameter_trees ps ≡ named_parameters names.now parameters.now) }
{
    let mut named = Vec::new(alloc);
    for i in 0..parameters.len() {
        let name = name_at(alloc, names, i)?;
        let place = parameters[i];
        named.push(CoreParameter { name, place })?;
    }
    Ok(named)
}

fn variable_at(
    alloc: Global,
    names: &[VariableName],
    i: usize,
    scalar: Scalar,
) -> Result<CoreVariable, NoMemory>
    ensures { IfOk result (λ v. variable_tree v ≡ variable_at names.now i scalar) }
{
    match names.get(i) {
        None => {
            let name = Name::new(alloc, b"")?;
            let ordinal = 1;
            Ok(CoreVariable {
                name,
                ordinal,
                scalar,
            })
        }
        Some(x) => {
            let name = x.name.copy(alloc)?;
            let ordinal = x.ordinal;
            Ok(CoreVariable {
                name,
                ordinal,
                scalar,
            })
        }
    }
}

fn named_variables(
    alloc: Global,
    names: &[VariableName],
    scalars: &[Scalar],
) -> Result<Vec<CoreVariable>, NoMemory>
    ensures { IfOk result (λ vs. variable_trees vs ≡ named_variables names.now scalars.now) }
{
    let mut named = Vec::new(alloc);
    for i in 0..scalars.len() {
        let v = variable_at(alloc, names, i, scalars[i])?;
        named.push(v)?;
    }
    Ok(named)
}

// ---- functions

// 5.1.2.2.3: the end of main returns 0
fn end_body(out: &mut Vec<CoreStmt>, is_main: bool) -> Result<(), NoMemory>
    ensures { Adds (end_of_body is_main) out.old out.new result }
{
    if is_main {
        push(
            out,
            CoreStmt::Return(Some(CoreExpr::Literal(Scalar::Int, 0))),
        )
    } else {
        Ok(())
    }
}

fn function_with(
    alloc: Global,
    parameter_names: &[Name],
    variable_names: &[VariableName],
    g: &TypedFunction,
) -> Result<CoreFunction, NoMemory>
    ensures { GivesFunction (function_with parameter_names.now variable_names.now g.now) result }
{
    let mut temporaries = Vec::new(alloc);
    let mut body = Vec::new(alloc);
    statements(&g.body, alloc, &mut body, &mut temporaries)?;
    end_body(&mut body, g.is_main)?;
    let name = g.name.copy(alloc)?;
    let parameters = named_parameters(alloc, parameter_names, &g.parameters)?;
    let variables = named_variables(alloc, variable_names, &g.variables)?;
    let blocks = Vec::from_slice(alloc, &g.blocks)?;
    Ok(CoreFunction {
        name,
        parameters,
        variables,
        temporaries,
        blocks,
        result_type: g.result,
        body,
    })
}

fn function_at(
    alloc: Global,
    names: &[FunctionNames],
    i: usize,
    g: &TypedFunction,
) -> Result<CoreFunction, NoMemory>
    ensures { GivesFunction (function_at names.now i g.now) result }
{
    match names.get(i) {
        None => function_with(alloc, &[], &[], g),
        Some(f) => function_with(alloc, &f.parameters, &f.variables, g),
    }
}

/// The functions of a unit.
pub fn functions(
    alloc: Global,
    names: &[FunctionNames],
    gs: &[TypedFunction],
) -> Result<Vec<CoreFunction>, NoMemory>
    ensures { IfOk result (λ fs. function_trees fs ≡ functions names.now gs.now) }
{
    let mut functions = Vec::new(alloc);
    for i in 0..gs.len() {
        let f = function_at(alloc, names, i, &gs[i])?;
        functions.push(f)?;
    }
    Ok(functions)
}
