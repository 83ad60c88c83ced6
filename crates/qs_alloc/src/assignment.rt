// Places for the temporaries of a function.
ghost use Rattle.std.specs.Prelude.{◌≡◌, ◌<◌, ◌^◌, length, IfOk};
ghost use Rattle.qs_tac.specs.Laws.{AreAccepted, ArePacked};
ghost use Rattle.qs_tac.specs.TreeOf.{function_tree, function_trees};
ghost use Rattle.qs_tac.specs.Places.{slots_from, all_slots, Accepted, Packed};
ghost use Rattle.qs_tac.specs.Places.{places_tree, places_trees};
ghost use Rattle.qs_tac.specs.UnitTrees.{unit_tree};
ghost use Rattle.qs_alloc.specs.LiveRanges.{NeededRows};
ghost use Rattle.qs_alloc.specs.Registers.{Chosen};
ghost use Rattle.qs_alloc.specs.Packing.{AllPacked};

use crate::lists::{numbered, turned};
use crate::live_ranges::needed_rows;
use crate::registers::fill;
use crate::rows::{Side, rows_of};
use qs_base::{NoMemory, count};
use qs_calls::Parameter;
use qs_tac::{Instruction, Place, Places, TacFunction, TacUnit};
use std::alloc::Global;

fn own_slots(alloc: Global, count: u32) -> Result<Vec<Place>, NoMemory>
    ensures { IfOk result (λ places. places.items ≡ slots_from 0 count) }
{
    let mut at = Vec::new(alloc);
    for slot in 0..count {
        at.push(Place::Slot(slot))?;
    }
    Ok(at)
}

/// A slot for each temporary, with the temporary's number, and an empty certificate.
pub fn all_slots(alloc: Global, f: &TacFunction) -> Result<Places, NoMemory>
    ensures { IfOk result (λ places. places_tree places ≡ all_slots (function_tree f.now)) }
{
    Ok(Places {
        at: own_slots(alloc, f.temporaries)?,
        needed: Vec::new(alloc),
    })
}

// registers as far as registers are free, and else the slots of `all_slots`
fn chosen(
    alloc: Global,
    parameters: &[Parameter],
    code: &[Instruction],
    temporaries: u32,
    rows: &[Vec<u32>],
) -> Result<Vec<Place>, NoMemory>
    requires room { length code.now < 2 ^ 32 }
    requires rows { NeededRows code.now temporaries rows.now }
    ensures { IfOk result (λ at. Chosen parameters.now code.now temporaries rows.now at.items) }
{
    let writers = rows_of(alloc, Side::Written, code, temporaries as usize)?;
    let mut at = own_slots(alloc, temporaries)?;
    let mut busy = vec![in alloc; 0_u32; code.len() + 1]?;
    fill(alloc, parameters, code, rows, &writers, &mut at, &mut busy)?;
    Ok(at)
}

/// Places that keep what the function does, chosen by where its temporaries are needed: `verify`
/// accepts them, the certificate is least, and no temporary stands in a slot while it could stand in
/// a register.
pub fn assign(alloc: Global, f: &TacFunction) -> Result<Places, NoMemory>
    ensures packed { IfOk result (λ places. Packed (function_tree f.now) (places_tree places)) }
    ensures accepted { IfOk result (λ places. Accepted (function_tree f.now) (places_tree places)) }
{
    let code = f.code.as_slice();
    count(code.len())?;
    let rows = needed_rows(alloc, code, f.temporaries)?;
    let at = chosen(alloc, &f.parameters, code, f.temporaries, &rows)?;
    Ok(Places {
        at: numbered(alloc, &at)?,
        needed: turned(alloc, &rows, code.len())?,
    })
}

fn assign_all(alloc: Global, functions: &[TacFunction]) -> Result<Vec<Places>, NoMemory>
    ensures { IfOk result (λ all. AllPacked (function_trees functions.now) (places_trees all.items)) }
{
    let mut all = Vec::new(alloc);
    for f in functions {
        all.push(assign(alloc, f)?)?;
    }
    Ok(all)
}

/// The places that `assign` answers for each function of the unit, by the functions' numbers.
/// `verify_unit` accepts them.
pub fn assign_unit(alloc: Global, unit: &TacUnit) -> Result<Vec<Places>, NoMemory>
    ensures packed { IfOk result (λ all. ArePacked (unit_tree unit.now) (places_trees all.items)) }
    ensures accepted { IfOk result (λ all. AreAccepted (unit_tree unit.now) (places_trees all.items)) }
    ensures count { IfOk result (λ all. length all.items ≡ length unit.now.functions.items) }
{
    let places = assign_all(alloc, &unit.functions)?;
    Ok(places)
}
