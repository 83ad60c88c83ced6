// Declarations with their names as the program calls them (C11 6.7).
ghost use Rattle.std.specs.Prelude.{◌≡◌, IfOk, OnOk, map};
ghost use Rattle.qs_syntax.specs.TreeOf.{declaration_tree, declarator_tree, initialiser_tree};
ghost use Rattle.qs_syntax.specs.TreeOf.{initialisers_tree, lengths_tree, list_tree, members_tree};
ghost use Rattle.qs_syntax.specs.TreeOf.{parameter_tree, setting_tree, variable_tree};
ghost use Rattle.qs_link_names.specs.InternalOf.{internal_of};
ghost use Rattle.qs_link_names.specs.LinkedDeclarations as spec;

use crate::expressions::{linked_expr, linked_exprs};
use crate::linkage::Internal;
use qs_base::{Name, NoMemory};
use qs_syntax::{
    Declaration, Declarator, Initialiser, InitialiserList, Lengths, Members, Parameter, Variable,
};
use std::alloc::Global;

fn linked_lengths(alloc: Global, own: &Internal<'_>, from: &Lengths) -> Result<Lengths, NoMemory>
    ensures { IfOk result (λ to. lengths_tree to ≡ spec.linked_lengths (internal_of own.now) (lengths_tree from.now)) }
{
    Ok(Lengths {
        is_open: from.is_open,
        given: linked_exprs(alloc, own, &from.given)?,
    })
}

/// A name without linkage.
fn linked_declarator(
    alloc: Global,
    own: &Internal<'_>,
    from: &Declarator,
) -> Result<Declarator, NoMemory>
    ensures { IfOk result (λ to. declarator_tree to ≡ spec.linked_declarator (internal_of own.now) (declarator_tree from.now)) }
{
    Ok(Declarator {
        node: from.node,
        stars: from.stars,
        name: from.name.copy(alloc)?,
        lengths: linked_lengths(alloc, own, &from.lengths)?,
    })
}

/// A name of file scope.
fn linked_outer(
    alloc: Global,
    own: &Internal<'_>,
    from: &Declarator,
) -> Result<Declarator, NoMemory>
    ensures { IfOk result (λ to. declarator_tree to ≡ spec.linked_outer (internal_of own.now) (declarator_tree from.now)) }
{
    Ok(Declarator {
        node: from.node,
        stars: from.stars,
        name: own.linked(alloc, &from.name)?,
        lengths: linked_lengths(alloc, own, &from.lengths)?,
    })
}

#[cycle(linked_initialiser)]
fn linked_initialiser(
    alloc: Global,
    own: &Internal<'_>,
    from: &Initialiser,
) -> Result<Initialiser, NoMemory>
    ensures { IfOk result (λ to. initialiser_tree to ≡ spec.linked_initialiser (internal_of own.now) (initialiser_tree from.now)) }
{
    match from {
        Initialiser::Value(e) => Ok(Initialiser::Value(linked_expr(alloc, own, e)?)),
        Initialiser::List(list) => Ok(Initialiser::List(linked_list(alloc, own, list)?)),
    }
}

#[cycle(linked_initialiser)]
fn linked_list(
    alloc: Global,
    own: &Internal<'_>,
    from: &InitialiserList,
) -> Result<InitialiserList, NoMemory>
    ensures { IfOk result (λ to. list_tree to ≡ spec.linked_initialiser (internal_of own.now) (list_tree from.now)) }
{
    let items = linked_initialisers(alloc, own, &from.items)?;
    Ok(InitialiserList {
        node: from.node,
        items,
    })
}

#[cycle(linked_initialiser)]
#[tactic(auto, using(crate::proofs::ListLaws::initialisers_linked))]
fn linked_initialisers(
    alloc: Global,
    own: &Internal<'_>,
    from: &[Initialiser],
) -> Result<Vec<Initialiser>, NoMemory>
    ensures { IfOk result (λ to. initialisers_tree to.items ≡ spec.linked_initialisers (internal_of own.now) (initialisers_tree from.now)) }
{
    let mut to = Vec::new(alloc);
    for item in from {
        to.push(linked_initialiser(alloc, own, item)?)?;
    }
    Ok(to)
}

fn linked_setting(
    alloc: Global,
    own: &Internal<'_>,
    from: &Option<Initialiser>,
) -> Result<Option<Initialiser>, NoMemory>
    ensures { IfOk result (λ to. setting_tree to ≡ spec.linked_setting (internal_of own.now) (setting_tree from.now)) }
{
    match from {
        None => Ok(None),
        Some(initialiser) => Ok(Some(linked_initialiser(alloc, own, initialiser)?)),
    }
}

// ---- at file scope

fn linked_outer_variable(
    alloc: Global,
    own: &Internal<'_>,
    from: &Variable,
) -> Result<Variable, NoMemory>
    ensures { IfOk result (λ to. variable_tree to ≡ spec.linked_outer_variable (internal_of own.now) (variable_tree from.now)) }
{
    Ok(Variable {
        declarator: linked_outer(alloc, own, &from.declarator)?,
        initialiser: linked_setting(alloc, own, &from.initialiser)?,
    })
}

/// A declaration of file scope.
pub fn linked_outer_declaration(
    alloc: Global,
    own: &Internal<'_>,
    from: &Declaration,
) -> Result<Declaration, NoMemory>
    ensures { IfOk result (λ to. declaration_tree to ≡ spec.linked_outer_declaration (internal_of own.now) (declaration_tree from.now)) }
{
    let mut variables = Vec::new(alloc);
    for variable in &from.variables {
        variables.push(linked_outer_variable(alloc, own, variable)?)?;
    }
    Ok(Declaration {
        base: from.base.copy(alloc)?,
        variables,
    })
}

// ---- in a block

/// A variable, whose name is hidden from its initialiser on.
fn linked_variable<'a>(
    alloc: Global,
    own: &mut Internal<'a>,
    from: &'a Variable,
) -> Result<Variable, NoMemory>
    ensures variable { IfOk result (λ to. variable_tree to ≡ spec.linked_variable (internal_of own.old) (variable_tree from.now)) }
    ensures behind { OnOk result (internal_of own.new ≡ spec.behind_variable (internal_of own.old) (variable_tree from.now)) }
{
    let declarator = linked_declarator(alloc, own, &from.declarator)?;
    own.hide(&from.declarator.name)?;
    let initialiser = linked_setting(alloc, own, &from.initialiser)?;
    Ok(Variable {
        declarator,
        initialiser,
    })
}

/// A declaration of a block, whose names are hidden behind it.
pub fn linked_declaration<'a>(
    alloc: Global,
    own: &mut Internal<'a>,
    from: &'a Declaration,
) -> Result<Declaration, NoMemory>
    ensures declaration { IfOk result (λ to. declaration_tree to ≡ spec.linked_declaration (internal_of own.old) (declaration_tree from.now)) }
    ensures behind { OnOk result (internal_of own.new ≡ spec.behind_variables (internal_of own.old) (declaration_tree from.now).variables) }
{
    let mut variables = Vec::new(alloc);
    for variable in &from.variables {
        variables.push(linked_variable(alloc, own, variable)?)?;
    }
    Ok(Declaration {
        base: from.base.copy(alloc)?,
        variables,
    })
}

// ---- parameters, members and type names

/// A copy of a name that may be absent.
pub fn copied_name(alloc: Global, name: &Option<Name>) -> Result<Option<Name>, NoMemory>
    ensures { IfOk result (λ to. to ≡ name.now) }
{
    match name {
        None => Ok(None),
        Some(name) => Ok(Some(name.copy(alloc)?)),
    }
}

fn hide_name<'a>(own: &mut Internal<'a>, name: &'a Option<Name>) -> Result<(), NoMemory>
    ensures { OnOk result (internal_of own.new ≡ spec.behind_name (internal_of own.old) name.now) }
{
    match name {
        None => Ok(()),
        Some(name) => own.hide(name),
    }
}

/// A parameter, whose name is hidden behind it.
fn linked_parameter<'a>(
    alloc: Global,
    own: &mut Internal<'a>,
    from: &'a Parameter,
) -> Result<Parameter, NoMemory>
    ensures parameter { IfOk result (λ to. parameter_tree to ≡ spec.linked_parameter (internal_of own.old) (parameter_tree from.now)) }
    ensures behind { OnOk result (internal_of own.new ≡ spec.behind_name (internal_of own.old) (parameter_tree from.now).name) }
{
    let lengths = linked_lengths(alloc, own, &from.lengths)?;
    hide_name(own, &from.name)?;
    Ok(Parameter {
        node: from.node,
        type_name: from.type_name.copy(alloc)?,
        name: copied_name(alloc, &from.name)?,
        lengths,
    })
}

/// Parameters, whose names are hidden behind them.
pub fn linked_parameters<'a>(
    alloc: Global,
    own: &mut Internal<'a>,
    from: &'a [Parameter],
) -> Result<Vec<Parameter>, NoMemory>
    ensures parameters { IfOk result (λ to. map parameter_tree to.items ≡ spec.linked_parameters (internal_of own.old) (map parameter_tree from.now)) }
    ensures behind { OnOk result (internal_of own.new ≡ spec.behind_parameters (internal_of own.old) (map parameter_tree from.now)) }
{
    let mut to = Vec::new(alloc);
    for parameter in from {
        to.push(linked_parameter(alloc, own, parameter)?)?;
    }
    Ok(to)
}

/// Declarators of members or type names.
pub fn linked_declarators(
    alloc: Global,
    own: &Internal<'_>,
    from: &[Declarator],
) -> Result<Vec<Declarator>, NoMemory>
    ensures { IfOk result (λ to. map declarator_tree to.items ≡ spec.linked_declarators (internal_of own.now) (map declarator_tree from.now)) }
{
    let mut to = Vec::new(alloc);
    for declarator in from {
        to.push(linked_declarator(alloc, own, declarator)?)?;
    }
    Ok(to)
}

/// Members that are declared together.
pub fn linked_members(
    alloc: Global,
    own: &Internal<'_>,
    from: &Members,
) -> Result<Members, NoMemory>
    ensures { IfOk result (λ to. members_tree to ≡ spec.linked_members (internal_of own.now) (members_tree from.now)) }
{
    Ok(Members {
        base: from.base.copy(alloc)?,
        declarators: linked_declarators(alloc, own, &from.declarators)?,
    })
}
