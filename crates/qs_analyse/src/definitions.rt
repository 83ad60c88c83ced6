// The definitions of open functions.
ghost use Rattle.std.specs.Prelude.{◌≡◌, ◌<◌, ◌++◌, ◌∷◌, [], IfOk, OnOk, length};
ghost use Rattle.qs_assert.specs.Trees as trees;
ghost use Rattle.qs_core.specs.UnitTrees.{unit_tree};
ghost use Rattle.qs_core.specs.FunctionNames.{function_name};
ghost use Rattle.qs_triples.specs.Filled.{open_definition};
ghost use Rattle.qs_callgraph.specs.CallLists.{AreBelow, numbers};
ghost use Rattle.qs_analyse.specs.Fillable.{with_definitions};
ghost use Rattle.qs_analyse.specs.Needs.{GivesItems, named_calls};

use crate::needs::{call_part, greatest, put_part};
use qs_assert::{Assertion, Define};
use qs_base::{FnId, NoMemory};
use qs_callgraph::called_by;
use qs_core::{CoreUnit, name_of};
use std::alloc::Global;

// The name of a function as what it needs.
fn named(alloc: Global, unit: &CoreUnit, f: FnId) -> Result<Assertion, NoMemory>
    requires { f.0 < length unit.now.functions.items }
    ensures { IfOk result (λ a. a ≡ trees.named (function_name (unit_tree unit.now) f.0)) }
{
    Assertion::named(alloc, &unit.functions[f.0 as usize].name)
}

// What calls of these need, where each needs its name.
fn named_calls(alloc: Global, unit: &CoreUnit, callees: &[FnId]) -> Result<Vec<Assertion>, NoMemory>
    requires { AreBelow (numbers callees.now) (length unit.now.functions.items) }
    ensures { GivesItems result (named_calls (unit_tree unit.now) (numbers callees.now)) }
{
    let mut parts = Vec::new(alloc);
    for g in callees {
        put_part(&mut parts, call_part(alloc, *g, named(alloc, unit, *g)?)?)?;
    }
    Ok(parts)
}

/// The definition of an open function.
pub fn definition(alloc: Global, unit: &CoreUnit, f: FnId) -> Result<Define, NoMemory>
    requires { f.0 < length unit.now.functions.items }
    ensures { IfOk result (λ d. d ≡ open_definition (unit_tree unit.now) f.0) }
{
    let callees = called_by(alloc, unit, f)?;
    let parts = named_calls(alloc, unit, &callees)?;
    Ok(Define {
        name: name_of(alloc, unit, f)?,
        body: greatest(alloc, parts)?,
    })
}

fn put_definition(defines: &mut Vec<Define>, d: Define) -> Result<(), NoMemory>
    ensures { OnOk result (defines.new.items ≡ defines.old.items ++ d ∷ []) }
{
    defines.push(d)?;
    Ok(())
}

/// The definitions of open functions, and behind them those that are given.
pub fn definitions(
    alloc: Global,
    unit: &CoreUnit,
    opened: &[FnId],
    given: Vec<Define>,
) -> Result<Vec<Define>, NoMemory>
    requires { AreBelow (numbers opened.now) (length unit.now.functions.items) }
    ensures { GivesItems result (with_definitions unit.now opened.now given.items) }
{
    let mut defines = Vec::new(alloc);
    for f in opened {
        put_definition(&mut defines, definition(alloc, unit, *f)?)?;
    }
    for d in given {
        put_definition(&mut defines, d)?;
    }
    Ok(defines)
}
