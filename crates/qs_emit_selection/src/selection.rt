// What a unit of linear code becomes.
ghost use Rattle.std.specs.Prelude.{◌≡◌, true, IfOk, IfErr, OnOk, slice_index_or};
ghost use Rattle.qs_tac.specs.Fits.{function_fits};
ghost use Rattle.qs_tac.specs.Places.{places_tree, places_trees, no_places};
ghost use Rattle.qs_tac.specs.TreeOf.{function_tree, function_trees};
ghost use Rattle.qs_tac.specs.UnitTrees.{unit_tree};
ghost use Rattle.qs_frames.specs.Starts.{start_of};
ghost use Rattle.qs_emit_selection.specs.Data as unit_data;
ghost use Rattle.qs_emit_selection.specs.Limits as limits;
ghost use Rattle.qs_emit_selection.specs.Puts.{Puts};
ghost use Rattle.qs_emit_selection.specs.Units as units;
ghost use Rattle.qs_emit_selection.specs.Units.{start_items_at, Selects, SelectsAll};

use crate::calls::put_environment;
use crate::context::FunctionContext;
use crate::fault::SelectionFault;
use crate::functions::put_function;
use crate::instructions::ends_with_return;
use crate::limits::first_fault;
use crate::pieces::put_item;
use qs_asm::Item;
use qs_base::{FnId, NoMemory, count, sum};
use qs_frames::{Starts, laid_from, layout, slot_starts, stored_registers};
use qs_isa::{DATA_START, EXIT_CALL, Register};
use qs_tac::{Places, TacData, TacFunction, TacUnit};
use std::alloc::Global;

// ---- where data and labels begin

/// The sizes of a unit's data.
pub fn data_sizes(alloc: Global, blocks: &[TacData]) -> Result<Vec<u32>, NoMemory>
    ensures { IfOk result (λ sizes. sizes.items ≡ unit_data.data_sizes blocks.now) }
{
    let mut sizes = Vec::new(alloc);
    for block in blocks {
        sizes.push(block.size)?;
    }
    Ok(sizes)
}

/// The first label of each function, which has one for its entry, one for each instruction, and one
/// for its end.
pub fn first_labels(alloc: Global, functions: &[TacFunction]) -> Result<Starts, NoMemory>
    ensures { IfOk result (λ labels. units.AreFirstLabels (function_trees functions.now) labels) }
{
    let mut at = Vec::new(alloc);
    let mut end = 0;
    for f in functions {
        at.push(end)?;
        end = sum(end, sum(count(f.code.len())?, 2)?)?;
    }
    Ok(Starts { at, end })
}

// ---- functions

/// The places of the function with this number; `none` where the list has none.
fn places_of<'a>(places: &'a [Places], none: &'a Places, f: usize) -> &'a Places
    requires { places_tree none.now ≡ no_places }
    ensures { places_tree result.now ≡ slice_index_or (places_trees places.now) f no_places }
{
    match places.get(f) {
        None => none,
        Some(places) => places,
    }
}

fn put_function_at(
    alloc: Global,
    items: &mut Vec<Item>,
    unit: &TacUnit,
    data_starts: &Starts,
    labels: &Starts,
    number: u32,
    function: &TacFunction,
    places: &Places,
) -> Result<(), NoMemory>
    requires data_starts { units.AreDataStarts (unit_tree unit.now) data_starts.now }
    requires labels { units.AreFirstLabels (unit_tree unit.now).functions labels.now }
    requires fault { limits.FunctionFits (function_tree function.now) (places_tree places.now) }
    requires fits { function_fits (unit_tree unit.now) (function_tree function.now) ≡ true }
    ensures { OnOk result (Selects items.old items.new unit.now number function.now places.now) }
{
    let frame = layout(function, places);
    let slots = slot_starts(alloc, function, places)?;
    let stored = stored_registers(alloc, function, places)?;
    let blocks = laid_from(alloc, frame.placed, &function.blocks)?;
    let c = FunctionContext {
        unit,
        function,
        places,
        frame,
        slots: &slots,
        stored: &stored,
        one_epilogue: ends_with_return(&function.code),
        blocks: &blocks,
        data_starts,
        number,
        labels,
    };
    put_function(items, &c)
}

fn put_functions(
    alloc: Global,
    items: &mut Vec<Item>,
    unit: &TacUnit,
    data_starts: &Starts,
    labels: &Starts,
    places: &[Places],
    none: &Places,
) -> Result<(), NoMemory>
    requires data_starts { units.AreDataStarts (unit_tree unit.now) data_starts.now }
    requires labels { units.AreFirstLabels (unit_tree unit.now).functions labels.now }
    requires none { places_tree none.now ≡ no_places }
    requires fit { limits.FunctionsFit (unit_tree unit.now) (places_trees places.now) }
    ensures { OnOk result (SelectsAll items.old items.new unit.now places.now) }
{
    for (f, function) in unit.functions.iter().enumerate() {
        let number = count(f)?;
        let own = places_of(places, none, f);
        put_function_at(
            alloc,
            items,
            unit,
            data_starts,
            labels,
            number,
            function,
            own,
        )?;
    }
    Ok(())
}

// ---- units

fn put_start(items: &mut Vec<Item>, labels: &Starts, main: FnId) -> Result<(), NoMemory>
    ensures { OnOk result (Puts items.old items.new (start_items_at (start_of labels.now main.0))) }
{
    put_item(items, Item::Jump(Register::RA, labels.start(main.0)))?;
    put_environment(items, EXIT_CALL)
}

fn selected(
    alloc: Global,
    unit: &TacUnit,
    sizes: &[u32],
    places: &[Places],
    none: &Places,
) -> Result<Vec<Item>, NoMemory>
    requires none { places_tree none.now ≡ no_places }
    requires sizes { sizes.now ≡ unit_data.data_sizes (unit_tree unit.now).data_blocks }
    requires fits { limits.UnitFits (unit_tree unit.now) (places_trees places.now) }
    ensures { IfOk result (units.IsSelection (unit_tree unit.now) (places_trees places.now)) }
{
    let data_starts = laid_from(alloc, DATA_START, sizes)?;
    let labels = first_labels(alloc, &unit.functions)?;
    let mut items = Vec::new(alloc);
    put_start(&mut items, &labels, unit.main)?;
    put_functions(alloc, &mut items, unit, &data_starts, &labels, places, none)?;
    Ok(items)
}

/// The machine code of a unit whose temporaries stand in these places, as items: a function's
/// places stand by its number. `check_fits` tells whether there is any.
pub fn select(alloc: Global, unit: &TacUnit, places: &[Places]) -> Result<Vec<Item>, NoMemory>
    requires { limits.UnitFits (unit_tree unit.now) (places_trees places.now) }
    ensures { IfOk result (units.IsSelection (unit_tree unit.now) (places_trees places.now)) }
{
    let none = Places {
        at: Vec::new(alloc),
        needed: Vec::new(alloc),
    };
    let sizes = data_sizes(alloc, &unit.data_blocks)?;
    let items = selected(alloc, unit, &sizes, places, &none)?;
    Ok(items)
}

/// Whether machine code is selected for a unit whose temporaries stand in these places. Where it
/// isn't, the fault is `NoMemory` or the unit's first.
pub fn check_fits(alloc: Global, unit: &TacUnit, places: &[Places]) -> Result<(), SelectionFault>
    ensures fits { OnOk result (limits.UnitFits (unit_tree unit.now) (places_trees places.now)) }
    ensures fault { IfErr result (units.IsFault (unit_tree unit.now) (places_trees places.now)) }
{
    let none = Places {
        at: Vec::new(alloc),
        needed: Vec::new(alloc),
    };
    let sizes = data_sizes(alloc, &unit.data_blocks)?;
    match first_fault(unit, &sizes, places, &none) {
        Some(fault) => Err(fault),
        None => Ok(()),
    }
}
