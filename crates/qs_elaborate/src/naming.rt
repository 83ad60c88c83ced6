// The names of variables, by their nodes.
ghost use Rattle.std.specs.Prelude.{◌≡◌, ◌+◌, IfOk, map};
ghost use Rattle.qs_elaborate.specs.NamesOf.{variable_name_of};
ghost use Rattle.qs_elaborate.specs.DeclaredOf.{declared_of};
ghost use Rattle.qs_elaborate.specs.Naming.{name_or_none, name_in, times_of, CountsOneMore, Names};
ghost use Rattle.qs_elaborate.specs.Naming.{Notes, NamesAll, names_at};

use crate::names::{Declared, VariableName};
use indexmap::IndexMap;
use qs_base::{Name, NoMemory};
use std::alloc::Global;

// ---- counts

fn count(counts: &IndexMap<Name, u32>, name: &Name) -> u32
    ensures { result ≡ times_of name.now counts.now }
{
    match counts.get(name) {
        None => 0,
        Some(n) => *n,
    }
}

fn one_more(n: u32) -> Result<u32, NoMemory>
    ensures { IfOk result (λ m. m ≡ n + 1) }
{
    if n == u32::MAX {
        return Err(NoMemory);
    }
    Ok(n + 1)
}

// One more of this name: how many there are now.
fn count_one(alloc: Global, counts: &mut IndexMap<Name, u32>, name: &Name) -> Result<u32, NoMemory>
    ensures count { IfOk result (λ n. n ≡ times_of name.now counts.old + 1) }
    ensures counts { CountsOneMore name.now counts.old counts.new result }
{
    let n = one_more(count(counts, name))?;
    counts.insert(name.copy(alloc)?, n)?;
    Ok(n)
}

// ---- names

// Gives a node this name, unless it has one.
fn note_name(
    alloc: Global,
    names: &mut IndexMap<u32, VariableName>,
    node: u32,
    name: &Name,
    ordinal: u32,
) -> Result<(), NoMemory>
    ensures { Names node name.now ordinal names.old names.new result }
{
    if names.contains_key(&node) {
        return Ok(());
    }
    let name = name.copy(alloc)?;
    names.insert(node, VariableName { name, ordinal })?;
    Ok(())
}

fn note(
    alloc: Global,
    names: &mut IndexMap<u32, VariableName>,
    counts: &mut IndexMap<Name, u32>,
    d: &Declared,
) -> Result<(), NoMemory>
    ensures { Notes (declared_of d.now) names.old counts.old names.new counts.new result }
{
    let ordinal = count_one(alloc, counts, &d.name)?;
    note_name(alloc, names, d.node, &d.name, ordinal)?;
    Ok(())
}

// The names of what is declared, by the nodes.
fn names_by_node(
    alloc: Global,
    declared: &[Declared],
) -> Result<IndexMap<u32, VariableName>, NoMemory>
    ensures { IfOk result (λ names. NamesAll declared.now names) }
{
    let mut names = IndexMap::new(alloc);
    let mut counts = IndexMap::new(alloc);
    for d in declared {
        note(alloc, &mut names, &mut counts, d)?;
    }
    Ok(names)
}

fn name_of(
    alloc: Global,
    names: &IndexMap<u32, VariableName>,
    node: u32,
) -> Result<VariableName, NoMemory>
    ensures { IfOk result (λ v. variable_name_of v ≡ name_or_none (name_in names.now node)) }
{
    match names.get(&node) {
        None => {
            let name = Name::new(alloc, b"")?;
            let ordinal = 1;
            Ok(VariableName { name, ordinal })
        }
        Some(v) => {
            let name = v.name.copy(alloc)?;
            let ordinal = v.ordinal;
            Ok(VariableName { name, ordinal })
        }
    }
}

/// The names of the variables at these nodes, among what a function declares.
pub fn variable_names(
    alloc: Global,
    declared: &[Declared],
    nodes: &[u32],
) -> Result<Vec<VariableName>, NoMemory>
    ensures { IfOk result (λ vs. map variable_name_of vs.items ≡ names_at nodes.now declared.now) }
{
    let names = names_by_node(alloc, declared)?;
    let mut variables = Vec::new(alloc);
    for node in nodes {
        variables.push(name_of(alloc, &names, *node)?)?;
    }
    Ok(variables)
}
