// The linear code of a unit of core.
ghost use Rattle.std.specs.Prelude.{◌≡◌, IfOk};
ghost use Rattle.qs_core.specs.UnitTrees as core;
ghost use Rattle.qs_tac.specs.UnitTrees as tac;
ghost use Rattle.qs_lower.specs.Units.{lower_unit};

use crate::data::lower_data_blocks;
use crate::functions::lower_functions;
use qs_base::NoMemory;
use qs_core::CoreUnit;
use qs_tac::TacUnit;
use std::alloc::Global;

/// The linear code of a unit of core, or `NoMemory` where too little is left. `lowering_follows`
/// tells what its runs are.
pub fn lower(alloc: Global, unit: &CoreUnit) -> Result<TacUnit, NoMemory>
    ensures { IfOk result (λ r. tac.unit_tree r ≡ lower_unit (core.unit_tree unit.now)) }
{
    let functions = lower_functions(alloc, &unit.functions)?;
    let data_blocks = lower_data_blocks(alloc, &unit.data_blocks)?;
    Ok(TacUnit {
        functions,
        main: unit.main,
        data_blocks,
    })
}
