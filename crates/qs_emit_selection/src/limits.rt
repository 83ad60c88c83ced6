// What machine code is selected for, and the first reason why it isn't.
ghost use Rattle.std.specs.Prelude.{◌≡◌, map};
ghost use Rattle.std.specs.List.{list_all};
ghost use Rattle.qs_tac.specs.Places.{places_tree, places_trees, no_places};
ghost use Rattle.qs_tac.specs.TreeOf.{function_tree, function_trees, instruction_tree};
ghost use Rattle.qs_tac.specs.UnitTrees.{unit_tree};
ghost use Rattle.qs_emit_selection.specs.Data as unit_data;
ghost use Rattle.qs_emit_selection.specs.Limits as spec;
ghost use Rattle.qs_emit_selection.specs.Limits.{functions_fault};

use crate::fault::SelectionFault;
use qs_base::{MOST_MAIN_PARAMETERS, MOST_PARAMETERS};
use qs_frames::{total_within, try_layout};
use qs_tac::{Instruction, Place, Places, TacFunction, TacUnit};

// As many as a function has parameters.
const MOST_ARGUMENTS: usize = MOST_PARAMETERS as usize;

// main's, which are in registers as a run starts.
const MOST_MAIN_ARGUMENTS: usize = MOST_MAIN_PARAMETERS as usize;

// As many as an image holds: `MOST_DATA_BYTES` of qs_image, on which nothing here stands.
const LARGEST_DATA: u32 = 16_777_216;

fn passes_few(i: &Instruction) -> bool
    ensures { result ≡ spec.passes_few (instruction_tree i.now) }
{
    match i {
        Instruction::Move(_, _) => true,
        Instruction::Unary(_, _, _) => true,
        Instruction::Binary(_, _, _, _) => true,
        Instruction::Convert(_, _, _) => true,
        Instruction::AddressOf(_, _) => true,
        Instruction::Load(_, _, _) => true,
        Instruction::Store(_, _, _) => true,
        Instruction::Copy { .. } => true,
        Instruction::Fill(_, _) => true,
        Instruction::Call(_, _, arguments) => arguments.len() <= MOST_ARGUMENTS,
        Instruction::Jump(_) => true,
        Instruction::Branch(_, _) => true,
        Instruction::Return(_) => true,
    }
}

fn all_pass_few(code: &[Instruction]) -> bool
    ensures { result ≡ list_all spec.passes_few (map instruction_tree code.now) }
{
    for i in code {
        if !passes_few(i) {
            return false;
        }
    }
    true
}

fn has_few(f: &TacFunction) -> bool
    ensures { result ≡ spec.has_few (function_tree f.now) }
{
    f.parameters.len() <= MOST_ARGUMENTS && all_pass_few(&f.code)
}

fn main_has_few(unit: &TacUnit) -> bool
    ensures { result ≡ spec.main_has_few (unit_tree unit.now) }
{
    match unit.functions.get(unit.main.0 as usize) {
        None => true,
        Some(f) => f.parameters.len() <= MOST_MAIN_ARGUMENTS,
    }
}

fn place_fits(place: Place) -> bool
    ensures { result ≡ spec.place_fits place }
{
    match place {
        Place::Slot(_) => true,
        Place::Register(r) => r < 32,
    }
}

fn all_fit(places: &[Place]) -> bool
    ensures { result ≡ list_all spec.place_fits places.now }
{
    for place in places {
        if !place_fits(*place) {
            return false;
        }
    }
    true
}

fn frame_fits(f: &TacFunction, places: &Places) -> bool
    ensures { result ≡ spec.frame_fits (function_tree f.now) (places_tree places.now) }
{
    match try_layout(f, places) {
        None => false,
        Some(_) => true,
    }
}

fn function_fault(f: &TacFunction, places: &Places) -> Option<SelectionFault>
    ensures { result ≡ spec.function_fault (function_tree f.now) (places_tree places.now) }
{
    if !has_few(f) {
        Some(SelectionFault::TooManyArguments)
    } else if !all_fit(&places.at) {
        Some(SelectionFault::NoRegister)
    } else if !frame_fits(f, places) {
        Some(SelectionFault::FrameTooLarge)
    } else {
        None
    }
}

fn functions_fault(
    functions: &[TacFunction],
    places: &[Places],
    none: &Places,
) -> Option<SelectionFault>
    requires { places_tree none.now ≡ no_places }
    ensures { result ≡ functions_fault (places_trees places.now) 0 (function_trees functions.now) }
{
    for (f, function) in functions.iter().enumerate() {
        let found = match places.get(f) {
            None => function_fault(function, none),
            Some(places) => function_fault(function, places),
        };
        if found.is_some() {
            return found;
        }
    }
    None
}

fn data_fit(sizes: &[u32]) -> bool
    ensures { result ≡ spec.sizes_fit sizes.now }
{
    match total_within(sizes) {
        None => false,
        Some(total) => total <= LARGEST_DATA,
    }
}

/// The first reason why no machine code is selected for a unit, where there is one.
pub fn first_fault(
    unit: &TacUnit,
    sizes: &[u32],
    places: &[Places],
    none: &Places,
) -> Option<SelectionFault>
    requires none { places_tree none.now ≡ no_places }
    requires sizes { sizes.now ≡ unit_data.data_sizes (unit_tree unit.now).data_blocks }
    ensures { result ≡ spec.first_fault (unit_tree unit.now) (places_trees places.now) }
{
    if !data_fit(sizes) {
        Some(SelectionFault::DataTooLarge)
    } else if !main_has_few(unit) {
        Some(SelectionFault::TooManyArguments)
    } else {
        functions_fault(&unit.functions, places, none)
    }
}
