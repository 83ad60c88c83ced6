// Copies of declarations (C11 6.7).
ghost use Rattle.std.specs.Prelude.{◌≡◌, IfOk, map};
ghost use Rattle.qs_syntax.specs.TreeOf.{lengths_tree, declarator_tree, initialiser_tree};
ghost use Rattle.qs_syntax.specs.TreeOf.{list_tree, setting_tree, variable_tree};
ghost use Rattle.qs_syntax.specs.TreeOf.{declaration_tree, parameter_tree, members_tree};

use crate::expressions::{copy_expr, copy_exprs};
use qs_base::{Name, NoMemory};
use qs_syntax::{
    Declaration, Declarator, Initialiser, InitialiserList, Lengths, Members, Parameter, Variable,
};
use std::alloc::Global;

fn copy_lengths(alloc: Global, from: &Lengths) -> Result<Lengths, NoMemory>
    ensures { IfOk result (λ to. lengths_tree to ≡ lengths_tree from.now) }
{
    Ok(Lengths {
        is_open: from.is_open,
        given: copy_exprs(alloc, &from.given)?,
    })
}

fn copy_declarator(alloc: Global, from: &Declarator) -> Result<Declarator, NoMemory>
    ensures { IfOk result (λ to. declarator_tree to ≡ declarator_tree from.now) }
{
    Ok(Declarator {
        node: from.node,
        stars: from.stars,
        name: from.name.copy(alloc)?,
        lengths: copy_lengths(alloc, &from.lengths)?,
    })
}

#[cycle(copy_initialiser)]
fn copy_initialiser(alloc: Global, from: &Initialiser) -> Result<Initialiser, NoMemory>
    ensures { IfOk result (λ to. initialiser_tree to ≡ initialiser_tree from.now) }
{
    match from {
        Initialiser::Value(e) => Ok(Initialiser::Value(copy_expr(alloc, e)?)),
        Initialiser::List(list) => Ok(Initialiser::List(copy_list(alloc, list)?)),
    }
}

#[cycle(copy_initialiser)]
fn copy_list(alloc: Global, from: &InitialiserList) -> Result<InitialiserList, NoMemory>
    ensures { IfOk result (λ to. list_tree to ≡ list_tree from.now) }
{
    let items = copy_initialisers(alloc, &from.items)?;
    Ok(InitialiserList {
        node: from.node,
        items,
    })
}

#[cycle(copy_initialiser)]
fn copy_initialisers(alloc: Global, from: &[Initialiser]) -> Result<Vec<Initialiser>, NoMemory>
    ensures { IfOk result (λ to. map initialiser_tree to.items ≡ map initialiser_tree from.now) }
{
    let mut to = Vec::new(alloc);
    for item in from {
        to.push(copy_initialiser(alloc, item)?)?;
    }
    Ok(to)
}

fn copy_option(alloc: Global, from: &Option<Initialiser>) -> Result<Option<Initialiser>, NoMemory>
    ensures { IfOk result (λ to. setting_tree to ≡ setting_tree from.now) }
{
    match from {
        None => Ok(None),
        Some(initialiser) => Ok(Some(copy_initialiser(alloc, initialiser)?)),
    }
}

fn copy_variable(alloc: Global, from: &Variable) -> Result<Variable, NoMemory>
    ensures { IfOk result (λ to. variable_tree to ≡ variable_tree from.now) }
{
    Ok(Variable {
        declarator: copy_declarator(alloc, &from.declarator)?,
        initialiser: copy_option(alloc, &from.initialiser)?,
    })
}

/// A copy of a declaration, with the same numbers and tokens of its nodes.
pub fn copy_declaration(alloc: Global, from: &Declaration) -> Result<Declaration, NoMemory>
    ensures { IfOk result (λ to. declaration_tree to ≡ declaration_tree from.now) }
{
    let mut variables = Vec::new(alloc);
    for variable in &from.variables {
        variables.push(copy_variable(alloc, variable)?)?;
    }
    Ok(Declaration {
        base: from.base.copy(alloc)?,
        variables,
    })
}

/// A copy of a name that may be absent.
pub fn copy_name(alloc: Global, name: &Option<Name>) -> Result<Option<Name>, NoMemory>
    ensures { IfOk result (λ to. to ≡ name.now) }
{
    match name {
        None => Ok(None),
        Some(name) => Ok(Some(name.copy(alloc)?)),
    }
}

/// A copy of a parameter, with the same numbers and tokens of its nodes.
pub fn copy_parameter(alloc: Global, from: &Parameter) -> Result<Parameter, NoMemory>
    ensures { IfOk result (λ to. parameter_tree to ≡ parameter_tree from.now) }
{
    Ok(Parameter {
        node: from.node,
        type_name: from.type_name.copy(alloc)?,
        name: copy_name(alloc, &from.name)?,
        lengths: copy_lengths(alloc, &from.lengths)?,
    })
}

/// A copy of declarators, with the same numbers and tokens of their nodes.
pub fn copy_declarators(alloc: Global, from: &[Declarator]) -> Result<Vec<Declarator>, NoMemory>
    ensures { IfOk result (λ to. map declarator_tree to.items ≡ map declarator_tree from.now) }
{
    let mut declarators = Vec::new(alloc);
    for declarator in from {
        declarators.push(copy_declarator(alloc, declarator)?)?;
    }
    Ok(declarators)
}

/// A copy of members that are declared together, with the same numbers and tokens of their nodes.
pub fn copy_members(alloc: Global, from: &Members) -> Result<Members, NoMemory>
    ensures { IfOk result (λ to. members_tree to ≡ members_tree from.now) }
{
    Ok(Members {
        base: from.base.copy(alloc)?,
        declarators: copy_declarators(alloc, &from.declarators)?,
    })
}
