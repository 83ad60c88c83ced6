// Variables (C11 6.7).
ghost use Rattle.std.specs.Prelude.{◌≡◌, IfOk, OnOk, is_some};
ghost use Rattle.qs_types.specs.StatementRules.{entity_at};
ghost use Rattle.qs_typing.specs.DeclaredOf.{option_type};
ghost use Rattle.qs_typing.specs.Declares.{IsVariable};
ghost use Rattle.qs_typing_findings.specs.EntityOf.{entity_tree};
ghost use Rattle.qs_typing.specs.Initialisers.{WalksValue, is_value_typed, value_fits};
ghost use Rattle.qs_typing.specs.VariableWalks.{AreVariableTests, HasDeclaredType, IsTested};
ghost use Rattle.qs_typing.specs.VariableWalks.{KnowsAll, KnowsOne, WalksAll, WalksDeclarator};
ghost use Rattle.qs_typing.specs.VariableWalks.{WalksOne, WalksOption, are_lengths_typed};
ghost use Rattle.qs_typing.specs.VariableWalks.{breaks_rule, holds_back};
ghost use Rattle.qs_typing_findings.specs.Variables.{fits_of};

use crate::declared_types::{Declared, variable_declared};
use crate::initialisers::{Fit, walk_list, walk_value};
use crate::lengths::walk_lengths;
use qs_base::NoMemory;
use qs_syntax::{Base, Expr, Initialiser, Variable};
use qs_types::{CType, Rule};
use qs_typing_findings::{Context, Entity, Test, Walk, copied, keeps, violates};
use std::alloc::Global;

/// What an initialiser says of its variable.
#[derive(Clone, Copy)]
pub struct Initialised {
    /// The variable breaks no rule, since one is broken in the initialiser.
    pub holds_back: bool,
    /// Whether the initialiser fits, where it and the variable have types.
    pub fits: Option<bool>,
}

fn entity_at(at_file_scope: bool, node: u32, t: Option<CType>) -> Entity
    ensures { entity_tree result ≡ entity_at at_file_scope node (option_type t) }
{
    if at_file_scope {
        Entity::FileVariable(node, t)
    } else {
        Entity::LocalVariable(node, t)
    }
}

/// Walks over an expression that initialises a variable, and tells whether a rule is broken in it.
fn walk_watched(
    alloc: Global,
    at_file_scope: bool,
    c: &Context,
    t: Option<&CType>,
    e: &Expr,
    walk: &mut Walk,
) -> Result<(Fit, bool), NoMemory>
    ensures typed { IfOk result (λ r. r.0.is_typed ≡ is_value_typed c.now e.now) }
    ensures fits { IfOk result (λ r. r.0.fits ≡ value_fits at_file_scope c.now t.entry e.now) }
    ensures broken { IfOk result (λ r. r.1 ≡ breaks_rule c.now e.now) }
    ensures walked { OnOk result (WalksValue at_file_scope c.now t.entry e.now walk.old walk.new) }
{
    let before = walk.found.least;
    walk.found.least = None;
    let fit = walk_value(alloc, at_file_scope, c, t, e, walk)?;
    let is_broken = walk.found.least.is_some();
    walk.join(before);
    Ok((fit, is_broken))
}

/// Whether an initialiser fits, where it and the object have types.
fn fits_of(t: &Option<CType>, fit: Fit) -> Option<bool>
    ensures { result ≡ fits_of (is_some t.now) fit.is_typed fit.fits }
{
    if t.is_some() && fit.is_typed {
        Some(fit.fits)
    } else {
        None
    }
}

/// Walks over what initialises a variable of type `t`.
fn walk_option_initialiser(
    alloc: Global,
    at_file_scope: bool,
    c: &Context,
    t: &Option<CType>,
    i: &Option<Initialiser>,
    walk: &mut Walk,
) -> Result<Initialised, NoMemory>
    ensures held { IfOk result (λ r. r.holds_back ≡ holds_back c.now i.now) }
    ensures fits { IfOk result (λ r. IsTested at_file_scope c.now t.now i.now r.fits) }
    ensures walked { OnOk result (WalksOption at_file_scope c.now t.now i.now walk.old walk.new) }
{
    match i {
        None => Ok(Initialised {
            holds_back: false,
            fits: None,
        }),
        Some(Initialiser::Value(e)) => {
            let (fit, is_broken) = walk_watched(alloc, at_file_scope, c, t.as_ref(), e, walk)?;
            Ok(Initialised {
                holds_back: !fit.is_typed && is_broken,
                fits: fits_of(t, fit),
            })
        }
        Some(Initialiser::List(l)) => {
            let fit = walk_list(alloc, at_file_scope, c, t.as_ref(), l, walk)?;
            Ok(Initialised {
                holds_back: false,
                fits: fits_of(t, fit),
            })
        }
    }
}

/// The tests of a variable: that its name is declared once in its scope, those of its type, and
/// that its initialiser fits.
fn variable_tests(
    alloc: Global,
    again: Option<bool>,
    declared: &[Test],
    initialised: Initialised,
) -> Result<Vec<Test>, NoMemory>
    ensures { IfOk result (λ ts. AreVariableTests again declared.now initialised ts.items) }
{
    let mut tests = Vec::new(alloc);
    if initialised.holds_back {
        return Ok(tests);
    }
    if let Some(again) = again {
        tests.push(violates(Rule::DeclaredTwice, again))?;
    }
    tests.extend_from_slice(declared)?;
    if let Some(fits) = initialised.fits {
        tests.push(keeps(Rule::InitialiserType, fits))?;
    }
    Ok(tests)
}

fn declare(
    alloc: Global,
    at_file_scope: bool,
    c: &mut Context,
    base: &Base,
    v: &Variable,
    t: &Option<CType>,
) -> Result<(), NoMemory>
    requires { HasDeclaredType c.old base.now v.now t.now }
    ensures { OnOk result (KnowsOne at_file_scope base.now v.now c.old c.new) }
{
    let name = v.declarator.name.copy(alloc)?;
    let entity = entity_at(at_file_scope, v.declarator.node.id, copied(alloc, t)?);
    c.declare(alloc, name, entity)
}

/// Walks over the declarator of a variable, and gives what it declares, and whether each of its
/// lengths has a type.
fn walk_declarator(
    alloc: Global,
    c: &Context,
    base: &Base,
    v: &Variable,
    walk: &mut Walk,
) -> Result<(Declared, bool), NoMemory>
    ensures declared { IfOk result (λ r. IsVariable c.now base.now v.now r.0) }
    ensures typed { IfOk result (λ r. r.1 ≡ are_lengths_typed c.now v.now) }
    ensures walked { OnOk result (WalksDeclarator c.now base.now v.now walk.old walk.new) }
{
    let at = walk.open_object()?;
    let lengths = walk_lengths(alloc, c, &v.declarator.lengths.given, walk)?;
    let all_typed = lengths.all_typed;
    let declared = variable_declared(alloc, c, base, v, lengths)?;
    let kept = copied(alloc, &declared.of)?;
    walk.declare(at, kept);
    Ok((declared, all_typed))
}

/// Walks over a variable, which is known behind its declarator.
pub fn walk_variable(
    alloc: Global,
    at_file_scope: bool,
    c: &mut Context,
    base: &Base,
    v: &Variable,
    walk: &mut Walk,
) -> Result<(), NoMemory>
    ensures context { OnOk result (KnowsOne at_file_scope base.now v.now c.old c.new) }
    ensures walked { OnOk result (WalksOne at_file_scope c.old base.now v.now walk.old walk.new) }
{
    let (declared, all_typed) = walk_declarator(alloc, c, base, v, walk)?;
    let node = v.declarator.node;
    walk.note_variable(at_file_scope, c, node, &declared.of)?;
    let is_again = c.is_taken(at_file_scope, &v.declarator.name);
    let again = if all_typed { Some(is_again) } else { None };
    declare(alloc, at_file_scope, c, base, v, &declared.of)?;
    let initialised = walk_option_initialiser(
        alloc,
        at_file_scope,
        c,
        &declared.of,
        &v.initialiser,
        walk,
    )?;
    let tests = variable_tests(alloc, again, &declared.tests, initialised)?;
    walk.judge(node, &tests);
    Ok(())
}

/// Walks over variables that are declared together.
pub fn walk_variables(
    alloc: Global,
    at_file_scope: bool,
    c: &mut Context,
    base: &Base,
    vs: &[Variable],
    walk: &mut Walk,
) -> Result<(), NoMemory>
    ensures context { OnOk result (KnowsAll at_file_scope base.now vs.now c.old c.new) }
    ensures walked { OnOk result (WalksAll at_file_scope c.old base.now vs.now walk.old walk.new) }
{
    for v in vs {
        walk_variable(alloc, at_file_scope, c, base, v, walk)?;
    }
    Ok(())
}
