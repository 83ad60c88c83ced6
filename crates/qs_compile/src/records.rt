// The records of functions.
ghost use Rattle.std.specs.Prelude.{◌≡◌, IfOk, length};
ghost use Rattle.qs_tac.specs.TreeOf.{function_trees};
ghost use Rattle.qs_asm.specs.Assembly.{places as label_places};
ghost use Rattle.qs_emit_selection.specs.Units.{AreFirstLabels};
ghost use Rattle.qs_compile.specs.Records.{place_of};
ghost use Rattle.qs_compile.specs.Program as program;
ghost use Rattle.qs_compile.specs.Program.{HaveRecordsWith};

use qs_asm::Labels;
use qs_base::{NoMemory, count, sum};
use qs_core::CoreFunction;
use qs_frames::{Starts, layout};
use qs_image::FunctionRecord;
use qs_isa::CODE_START;
use qs_tac::{Places, TacFunction};
use std::alloc::Global;

// Where a label stands.
fn address(labels: &Labels, label: u32) -> Result<u32, NoMemory>
    ensures { IfOk result (λ address. address ≡ place_of (label_places labels.now) label) }
{
    match labels.get(&label) {
        None => Ok(CODE_START),
        Some(offset) => sum(CODE_START, *offset),
    }
}

/// Where each function begins, by the labels of all and the functions' own labels.
pub fn addresses(
    alloc: Global,
    labels: &Labels,
    starts: &Starts,
    functions: &[TacFunction],
) -> Result<Vec<u32>, NoMemory>
    requires { AreFirstLabels (function_trees functions.now) starts.now }
    ensures { IfOk result (λ all. program.HaveAddresses labels.now functions.now all.items) }
{
    let mut all = Vec::new(alloc);
    for f in 0..count(functions.len())? {
        all.push(address(labels, starts.start(f))?)?;
    }
    Ok(all)
}

/// The bytes of each function's frame.
pub fn costs(
    alloc: Global,
    functions: &[TacFunction],
    places: &[Places],
) -> Result<Vec<u32>, NoMemory>
    requires fit { program.HaveFramesThatFit functions.now places.now }
    requires placed { length places.now ≡ length functions.now }
    ensures { IfOk result (λ all. program.HaveCosts functions.now places.now all.items) }
{
    let mut all = Vec::new(alloc);
    for (f, function) in functions.iter().enumerate() {
        all.push(layout(function, &places[f]).cost)?;
    }
    Ok(all)
}

/// The records of functions with these addresses and these costs.
pub fn records(
    alloc: Global,
    functions: &[CoreFunction],
    addresses: &[u32],
    costs: &[u32],
) -> Result<Vec<FunctionRecord>, NoMemory>
    requires addresses { length addresses.now ≡ length functions.now }
    requires costs { length costs.now ≡ length functions.now }
    ensures { IfOk result (λ all. HaveRecordsWith functions.now addresses.now costs.now all.items) }
{
    let mut all = Vec::new(alloc);
    for (f, function) in functions.iter().enumerate() {
        all.push(FunctionRecord {
            name: function.name.copy(alloc)?,
            address: addresses[f],
            cost: costs[f],
            parameters: count(function.parameters.len())?,
        })?;
    }
    Ok(all)
}
