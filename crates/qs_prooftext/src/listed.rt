// The functions for which a file has lists.
ghost use Rattle.std.specs.Prelude.{◌≡◌, ◌∷◌, [], length, OnOk};
ghost use Rattle.qs_core.specs.UnitTrees.{unit_tree};
ghost use Rattle.qs_prooftext.specs.Listed.{Marks, MarksNamed, MarksTop, TellsListed};

use qs_base::NoMemory;
use qs_core::CoreUnit;
use qs_prooftext_assertions::{Part, head_of, part_of};
use qs_prooftext_meaning::find_function;
use qs_sexpr::{Node, first_part};
use std::alloc::Global;

/// Marks the function with this name, if there is one.
fn mark_function(unit: &CoreUnit, word: &[u8], flags: &mut [bool]) -> Result<(), NoMemory>
    requires { length flags.old ≡ length unit.now.functions.items }
    ensures { OnOk result (Marks (unit_tree unit.now) (word.now ∷ []) flags.old flags.new) }
{
    match find_function(&unit.functions, word)? {
        Some(f) => {
            flags[f.0 as usize] = true;
            Ok(())
        }
        None => Ok(()),
    }
}

/// Marks the function whose name is the first of these parts.
fn mark_named(
    text: &[u8],
    unit: &CoreUnit,
    parts: &[Node],
    flags: &mut [bool],
) -> Result<(), NoMemory>
    requires { length flags.old ≡ length unit.now.functions.items }
    ensures { MarksNamed unit.now text.now parts.now flags.old flags.new result }
{
    match head_of(text, parts) {
        Some((word, _others)) => mark_function(unit, word, flags),
        None => Ok(()),
    }
}

/// Marks the function for which a list at the top stands.
fn mark(text: &[u8], unit: &CoreUnit, nodes: &[Node], flags: &mut [bool]) -> Result<(), NoMemory>
    requires { length flags.old ≡ length unit.now.functions.items }
    ensures { MarksTop unit.now text.now nodes.now flags.old flags.new result }
{
    match part_of(text, nodes) {
        Part::Number(_, _) => Ok(()),
        Part::Symbol(_, _) => Ok(()),
        Part::List(_, _, parts) => match head_of(text, parts) {
            None => Ok(()),
            Some((head, others)) => match head {
                b"function" => mark_named(text, unit, others, flags),
                _ => Ok(()),
            },
        },
    }
}

/// Whether the file has a list for each function of the unit.
pub fn listed_functions(
    alloc: Global,
    text: &[u8],
    unit: &CoreUnit,
    nodes: &[Node],
) -> Result<Vec<bool>, NoMemory>
    ensures { TellsListed unit.now text.now nodes.now result }
{
    let mut flags = Vec::from_elem(alloc, false, unit.functions.len())?;
    let mut rest = nodes;
    'tops: while let Some((first, others)) = first_part(rest) {
        mark(text, unit, first, &mut flags)?;
        rest = others;
    }
    Ok(flags)
}
