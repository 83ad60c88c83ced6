// The machine code of a unit of linear code.
ghost use Rattle.std.specs.Prelude.{◌≡◌, true, IfOk};
ghost use Rattle.qs_tac.specs.Places.{places_trees};
ghost use Rattle.qs_tac.specs.UnitTrees.{unit_tree};
ghost use Rattle.qs_emit_selection.specs.Limits.{data_fit};
ghost use Rattle.qs_emit_selection.specs.Units.{IsSelection};
ghost use Rattle.qs_emit.specs.Relation.{IsEmittable};
ghost use Rattle.qs_emit.specs.Emission.{AllReachWhereFew, HasFewWords, ImagesAreEmitted};

use qs_asm::Item;
use qs_base::NoMemory;
use qs_emit_selection::select;
use qs_tac::{Places, TacUnit};
use std::alloc::Global;

/// The machine code of a unit whose temporaries stand in these places, as items: a function's
/// places stand by its number. Each function has at most its words; where those of the unit are
/// below 2^18, each jump reaches. An image that has this code, and the records and the data of the
/// unit, does what the unit does.
pub fn emit(alloc: Global, unit: &TacUnit, places: &[Places]) -> Result<Vec<Item>, NoMemory>
    requires emittable { IsEmittable (unit_tree unit.now) (places_trees places.now) }
    requires room { data_fit (unit_tree unit.now) ≡ true }
    ensures items { IfOk result (IsSelection (unit_tree unit.now) (places_trees places.now)) }
    ensures words { IfOk result (HasFewWords (unit_tree unit.now) (places_trees places.now)) }
    ensures reach { IfOk result (AllReachWhereFew (unit_tree unit.now)) }
    ensures images { IfOk result (λ _. ImagesAreEmitted (unit_tree unit.now) (places_trees places.now)) }
{
    let items = select(alloc, unit, places)?;
    Ok(items)
}
