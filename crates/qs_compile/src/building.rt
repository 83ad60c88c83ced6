// The image of a unit of core.
ghost use Rattle.std.specs.Prelude.{◌≡◌, ◌<◌, ◌≤◌, ◌^◌, All, IfOk, IfErr, length, nat_le, true};
ghost use Rattle.qs_core.specs.UnitTrees as core;
ghost use Rattle.qs_core.specs.TreeOf.{function_trees};
ghost use Rattle.qs_core.specs.Interfaces.{main_types};
ghost use Rattle.qs_tac.specs.UnitTrees as tac;
ghost use Rattle.qs_tac.specs.Places.{places_trees};
ghost use Rattle.qs_asm.specs.Assembly.{IsAssembly};
ghost use Rattle.qs_asm.specs.Counting.{reached_words};
ghost use Rattle.qs_image.specs.Limits.{most_name_bytes};
ghost use Rattle.qs_emit_selection.specs.Limits.{data_fit};
ghost use Rattle.qs_emit.specs.Images.{IsWithinLimits};
ghost use Rattle.qs_compile.specs.Units.{IsWithinSizes};
ghost use Rattle.qs_compile.specs.Parts.{ArePartsOf};
ghost use Rattle.qs_compile.specs.Records.{FramesFit};
ghost use Rattle.qs_compile.specs.Program as program;
ghost use Rattle.qs_compile.specs.Program.{HasRecords};
ghost use Rattle.qs_compile.specs.Limits as spec;
ghost use Rattle.qs_compile.specs.Code.{AreCounted, IsCodeFault};
ghost use Rattle.qs_compile.specs.Built.{IsBuiltFrom};
ghost use Rattle.qs_compile.specs.AgreesWithCore.{AgreesWhereMainReturns};

use crate::data::data_bytes;
use crate::fault::BuildFault;
use crate::parameters::{parameter_types, unsigned_set};
use crate::records::{addresses, costs, records};
use qs_alloc::assign_unit;
use qs_asm::{AssemblyFault, Item, assemble, label_offsets};
use qs_base::{NoMemory, count};
use qs_core::{CoreFunction, CoreUnit};
use qs_emit::emit;
use qs_emit_selection::{check_fits, data_sizes, first_labels};
use qs_frames::laid_from;
use qs_image::{FunctionRecord, Image, MOST_CODE_WORDS, MOST_FUNCTIONS, MOST_NAME_BYTES};
use qs_isa::{CODE_START, DATA_START};
use qs_lower::lower;
use qs_memory::Scalar;
use qs_tac::{Places, TacUnit};
use std::alloc::Global;

// So few words that a jump reaches from each to each: an image holds as many.
const REACHED_WORDS: usize = MOST_CODE_WORDS as usize;

// ---- sizes

// Whether the names have room in an image.
fn names_fit(functions: &[CoreFunction]) -> bool
    ensures { result ≡ nat_le (spec.bytes_of_names (function_trees functions.now)) most_name_bytes }
{
    let mut bytes = 0;
    for f in functions {
        let more = f.name.bytes().len();
        if more > MOST_NAME_BYTES as usize - bytes {
            return false;
        }
        bytes += more;
    }
    true
}

fn check_names(unit: &CoreUnit) -> Result<(), BuildFault>
    ensures functions { IfOk result (λ _. spec.HasFewFunctions (core.unit_tree unit.now)) }
    ensures names { IfOk result (λ _. spec.HasShortNames (core.unit_tree unit.now)) }
    ensures fault { IfErr result (λ fault. spec.Passes (core.unit_tree unit.now) fault) }
{
    if unit.functions.len() > MOST_FUNCTIONS as usize {
        Err(BuildFault::TooManyFunctions)
    } else if !names_fit(&unit.functions) {
        Err(BuildFault::NamesTooLong)
    } else {
        Ok(())
    }
}

// ---- parts

// The words of the items.
fn code_of(alloc: Global, items: &[Item]) -> Result<Vec<u32>, BuildFault>
    requires { AreCounted items.now }
    ensures code { IfOk result (λ code. IsAssembly items.now code.items) }
    ensures few { IfOk result (λ code. length code.items ≤ reached_words) }
    ensures words { IfOk result (λ code. All (λ word. word < 2 ^ 32) code.items) }
    ensures fault { IfErr result (λ fault. IsCodeFault items.now fault) }
{
    match assemble(alloc, items) {
        Err(AssemblyFault::NoMemory) => Err(BuildFault::NoMemory),
        Err(AssemblyFault::BadLabel) => Err(BuildFault::CodeTooLong),
        Ok(words) => {
            if words.len() < REACHED_WORDS {
                Ok(words)
            } else {
                Err(BuildFault::CodeTooLong)
            }
        }
    }
}

// The records of the unit's functions.
fn records_of(
    alloc: Global,
    unit: &CoreUnit,
    linear: &TacUnit,
    places: &[Places],
    items: &[Item],
) -> Result<Vec<FunctionRecord>, NoMemory>
    requires same { program.HaveSameCount unit.now linear.now }
    requires placed { length places.now ≡ length (tac.unit_tree linear.now).functions }
    requires fit { FramesFit (tac.unit_tree linear.now).functions (places_trees places.now) }
    ensures { IfOk result (λ all. HasRecords unit.now linear.now places.now items.now all.items) }
{
    let labels = label_offsets(alloc, items)?;
    let starts = first_labels(alloc, &linear.functions)?;
    let addresses = addresses(alloc, &labels, &starts, &linear.functions)?;
    let costs = costs(alloc, &linear.functions, places)?;
    let all = records(alloc, &unit.functions, &addresses, &costs)?;
    Ok(all)
}

// The bytes of the unit's data.
fn bytes_of(alloc: Global, unit: &CoreUnit, linear: &TacUnit) -> Result<Vec<u8>, NoMemory>
    requires { data_fit (tac.unit_tree linear.now) ≡ true }
    ensures { IfOk result (λ bytes. bytes.items ≡ program.bytes_of_unit unit.now linear.now) }
{
    let sizes = data_sizes(alloc, &linear.data_blocks)?;
    let starts = laid_from(alloc, DATA_START, &sizes)?;
    let bytes = data_bytes(alloc, &starts, &unit.data_blocks)?;
    Ok(bytes)
}

// The types of main's parameters.
fn main_types(alloc: Global, unit: &CoreUnit) -> Result<Vec<Scalar>, NoMemory>
    ensures { IfOk result (λ types. types.items ≡ main_types (core.unit_tree unit.now)) }
{
    match unit.functions.get(unit.main.0 as usize) {
        None => Ok(Vec::new(alloc)),
        Some(main) => parameter_types(alloc, main),
    }
}

// ---- the whole

// The image of these parts.
fn image_of(
    alloc: Global,
    unit: &CoreUnit,
    functions: Vec<FunctionRecord>,
    code: Vec<u32>,
    bytes: Vec<u8>,
) -> Result<Image, NoMemory>
    requires { ArePartsOf (core.unit_tree unit.now) functions.items code.items bytes.items }
    ensures built { IfOk result (λ image. IsBuiltFrom (core.unit_tree unit.now) image) }
    ensures limits { IfOk result (λ image. IsWithinLimits image) }
    ensures sizes { IfOk result (λ image. IsWithinSizes (core.unit_tree unit.now) image) }
    ensures agrees { IfOk result (AgreesWhereMainReturns (core.unit_tree unit.now)) }
{
    let types = main_types(alloc, unit)?;
    Ok(Image {
        entry: CODE_START,
        parameters: count(types.len())?,
        unsigned_set: unsigned_set(&types),
        functions,
        code,
        bytes,
    })
}

/// The image of a unit of core: the code of its linear code, its values in places that keep what it
/// does. It does what the unit does wherever main returns a value. Where there is none, no memory was found,
/// or the unit passes the size that the fault names.
pub fn build_image(alloc: Global, unit: &CoreUnit) -> Result<Image, BuildFault>
    ensures built { IfOk result (λ image. IsBuiltFrom (core.unit_tree unit.now) image) }
    ensures limits { IfOk result (λ image. IsWithinLimits image) }
    ensures sizes { IfOk result (λ image. IsWithinSizes (core.unit_tree unit.now) image) }
    ensures agrees { IfOk result (AgreesWhereMainReturns (core.unit_tree unit.now)) }
    ensures fault { IfErr result (λ fault. spec.Passes (core.unit_tree unit.now) fault) }
{
    check_names(unit)?;
    let linear = lower(alloc, unit)?;
    let places = assign_unit(alloc, &linear)?;
    check_fits(alloc, &linear, &places)?;
    let items = emit(alloc, &linear, &places)?;
    let code = code_of(alloc, &items)?;
    let functions = records_of(alloc, unit, &linear, &places, &items)?;
    let bytes = bytes_of(alloc, unit, &linear)?;
    let image = image_of(alloc, unit, functions, code, bytes)?;
    Ok(image)
}
