// Units in core.
ghost use Rattle.std.specs.Prelude.{◌≡◌, true, Some, IfOk, map};
ghost use Rattle.qs_core.specs.Fits.{unit_fits};
ghost use Rattle.qs_core.specs.UnitTrees.{unit_tree};
ghost use Rattle.qs_syntax.specs.UnitTrees as source;
ghost use Rattle.qs_typed_trees.specs.TreeOf.{function_tree, program_tree};
ghost use Rattle.qs_typing_findings.specs.TypedOf.{typed_tree};
ghost use Rattle.qs_meaning.specs.Units.{typed_of};
ghost use Rattle.qs_meaning.specs.Runs.{main_from};
ghost use Rattle.qs_elaborate_laws.specs.FitLaws.{HasCore};
ghost use Rattle.qs_typed_units.specs.TablesOf.{numbers};
ghost use Rattle.qs_typed.specs.UnitVariables.{unit_variables};
ghost use Rattle.qs_elaborate_bodies.specs.Units.{core_of};
ghost use Rattle.qs_elaborate.specs.FunctionOf.{core_with};

use crate::data_blocks::data_blocks;
use crate::function::functions;
use crate::names::FunctionNames;
use crate::unit_names::unit_names;
use qs_base::{FnId, NoMemory};
use qs_core::CoreUnit;
use qs_syntax::Unit;
use qs_typed::{typed_program, variable_nodes};
use qs_typed_trees::{TypedFunction, TypedProgram};
use qs_typing_findings::TypedUnit;
use std::alloc::Global;

// The place of main among the functions (C11 5.1.2.2).
fn main_among(gs: &[TypedFunction]) -> Option<usize>
    ensures { result ≡ main_from 0 (map function_tree gs.now) }
{
    for i in 0..gs.len() {
        if gs[i].is_main {
            return Some(i);
        }
    }
    None
}

// The core of a typed tree, where it fits.
fn core_unit(
    alloc: Global,
    names: &[FunctionNames],
    program: &TypedProgram,
    main: FnId,
) -> Result<CoreUnit, NoMemory>
    requires { unit_fits (core_with names.now program.now main.0) ≡ true }
    ensures { IfOk result (λ u. unit_tree u ≡ core_with names.now program.now main.0) }
{
    let functions = functions(alloc, names, &program.functions)?;
    let data_blocks = data_blocks(alloc, &program.blocks)?;
    Ok(CoreUnit {
        functions,
        main,
        data_blocks,
    })
}

/// The core of a unit with this typed tree, where the variables of each function with a body stand
/// at these nodes. Want of memory is the other answer.
pub fn elaborated(
    alloc: Global,
    unit: &Unit,
    program: &TypedProgram,
    variables: &[Vec<u32>],
) -> Result<CoreUnit, NoMemory>
    requires has_core { HasCore (source.unit_tree unit.now) }
    requires tree { typed_of (source.unit_tree unit.now) ≡ Some (program_tree program.now) }
    requires variables { map numbers variables.now ≡ unit_variables (source.unit_tree unit.now) }
    ensures { IfOk result (λ core. core_of (source.unit_tree unit.now) ≡ Some (unit_tree core)) }
{
    let names = unit_names(alloc, unit.declarations(), variables)?;
    let main = match main_among(&program.functions) {
        None => unreachable!(),
        Some(i) => i,
    };
    if main > u32::MAX as usize {
        return Err(NoMemory);
    }
    let unit = core_unit(alloc, &names, program, FnId(main as u32))?;
    Ok(unit)
}

/// The core of a unit. Want of memory is the other answer.
pub fn elaborate(alloc: Global, typed: &TypedUnit) -> Result<CoreUnit, NoMemory>
    ensures { IfOk result (λ core. core_of (typed_tree typed.now) ≡ Some (unit_tree core)) }
{
    let program = typed_program(alloc, typed)?;
    let variables = variable_nodes(alloc, typed)?;
    let core = elaborated(alloc, typed.unit(), &program, &variables)?;
    Ok(core)
}
