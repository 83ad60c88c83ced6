// The names of a unit's functions.
ghost use Rattle.std.specs.Prelude.{◌≡◌, ◌<◌, IfOk, length};
ghost use Rattle.qs_core.specs.FunctionNames.{function_name};
ghost use Rattle.qs_core.specs.UnitTrees.{unit_tree};

use crate::unit::CoreUnit;
use qs_base::{FnId, Name, NoMemory};
use std::alloc::Global;

/// The name of a function.
pub fn name_of(alloc: Global, unit: &CoreUnit, f: FnId) -> Result<Name, NoMemory>
    requires { f.0 < length unit.now.functions.items }
    ensures { IfOk result (λ name. name ≡ function_name (unit_tree unit.now) f.0) }
{
    unit.functions[f.0 as usize].name.copy(alloc)
}
