// What each function of linear code becomes.
ghost use Rattle.std.specs.Prelude.{◌≡◌, OnOk, true};
ghost use Rattle.qs_tac.specs.Fits.{function_fits};
ghost use Rattle.qs_tac.specs.TreeOf.{instruction_tree};
ghost use Rattle.qs_tac.specs.UnitTrees.{unit_tree};
ghost use Rattle.qs_emit_selection.specs.ContextOf.{context_tree, code_items, fits_in, placed_items, whole_items};
ghost use Rattle.qs_emit_selection.specs.Limits.{FunctionFits, passes_few};
ghost use Rattle.qs_emit_selection.specs.Puts.{Puts};

use crate::context::FunctionContext;
use crate::entry::put_enter;
use crate::instructions::{put_epilogue, put_instruction, put_last};
use crate::labels::{function_label, instruction_label};
use crate::pieces::put_item;
use qs_asm::Item;
use qs_base::{FnId, NoMemory, count, sum};
use qs_tac::Instruction;

fn put_code(
    items: &mut Vec<Item>,
    c: &FunctionContext,
    is_last: bool,
    i: &Instruction,
) -> Result<(), NoMemory>
    requires few { passes_few (instruction_tree i.now) ≡ true }
    requires fits { fits_in c.now (instruction_tree i.now) ≡ true }
    ensures { OnOk result (Puts items.old items.new (placed_items c.now is_last (instruction_tree i.now))) }
{
    if is_last {
        put_last(items, c, i)
    } else {
        put_instruction(items, c, i)
    }
}

/// Each instruction behind its label, and the epilogue behind a label at the end.
#[tactic(auto, using(crate::proofs::FunctionLaws::code_facts))]
fn put_body(items: &mut Vec<Item>, c: &FunctionContext) -> Result<(), NoMemory>
    requires few { FunctionFits (context_tree c.now).function (context_tree c.now).places }
    requires fits { function_fits (unit_tree c.now.unit.now) (context_tree c.now).function ≡ true }
    ensures { OnOk result (Puts items.old items.new (code_items c.now)) }
{
    let end = count(c.function.code.len())?;
    let mut k = 0;
    for i in &c.function.code {
        put_item(items, Item::Label(instruction_label(c, k)?))?;
        let next = sum(k, 1)?;
        put_code(items, c, next == end, i)?;
        k = next;
    }
    put_item(items, Item::Label(instruction_label(c, k)?))?;
    put_epilogue(items, c)
}

/// The function behind its label.
#[tactic(auto, using(crate::proofs::FunctionLaws::few_parameters))]
pub fn put_function(items: &mut Vec<Item>, c: &FunctionContext) -> Result<(), NoMemory>
    requires few { FunctionFits (context_tree c.now).function (context_tree c.now).places }
    requires fits { function_fits (unit_tree c.now.unit.now) (context_tree c.now).function ≡ true }
    ensures { OnOk result (Puts items.old items.new (whole_items c.now)) }
{
    put_item(items, Item::Label(function_label(c, FnId(c.number))))?;
    put_enter(items, c)?;
    put_body(items, c)
}
