// The numbers of a unit are below 2^64. What is read is known to be a number of its type, so each
// is read once.
ghost use Rattle.std.specs.Prelude.{◌≡◌, true};
ghost use Rattle.qs_core.specs.TreeOf.{function_tree, variable_tree};
ghost use Rattle.qs_core.specs.UnitTrees.{unit_tree};
ghost use Rattle.qs_prooftext_meaning.specs.Writing.{HasShortNumbers, has_short_numbers, is_short};

use qs_core::{CoreFunction, CoreUnit, CoreVariable};

fn read_variable(v: &CoreVariable)
    ensures { is_short (variable_tree v.now) ≡ true }
{
    let _ordinal = v.ordinal;
}

fn read_function(function: &CoreFunction)
    ensures { has_short_numbers (function_tree function.now) ≡ true }
{
    let _count = function.temporaries.len();
    for v in &function.variables {
        read_variable(v);
    }
}

/// What is known once each number is read.
pub fn short_numbers(unit: &CoreUnit)
    ensures { HasShortNumbers (unit_tree unit.now) }
{
    for function in &unit.functions {
        read_function(function);
    }
}
