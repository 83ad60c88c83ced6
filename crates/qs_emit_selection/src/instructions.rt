// What each instruction of linear code becomes.
ghost use Rattle.std.specs.Prelude.{◌≡◌, true, false, OnOk, map};
ghost use Rattle.qs_tac.specs.TreeOf.{instruction_tree};
ghost use Rattle.qs_tac.specs.Trees as tac;
ghost use Rattle.qs_emit_selection.specs.ContextOf.{context_tree, labels_tree, items_of, placed_items, fits_in};
ghost use Rattle.qs_emit_selection.specs.Emission as spec;
ghost use Rattle.qs_emit_selection.specs.Limits.{passes_few};
ghost use Rattle.qs_emit_selection.specs.Puts.{Puts, Emits};

use crate::addresses::{put_address, put_anchor};
use crate::branches::put_branch;
use crate::calls::put_call;
use crate::context::FunctionContext;
use crate::entry::put_leave;
use crate::labels::instruction_label;
use crate::mnemonics::{load, store};
use crate::objects::{put_copy, put_fill};
use crate::operands::{place, put_into, put_move, put_operand, put_result, result_register};
use crate::operations::{conversion, put_binary, unary_instruction};
use crate::pieces::{load_kind, put, put_item, store_kind};
use qs_asm::Item;
use qs_base::{NoMemory, count};
use qs_isa::Register;
use qs_memory::{BinaryOperation, Scalar, UnaryOperation};
use qs_tac::{Address, Instruction, Operand};

// ---- results

fn put_unary(
    items: &mut Vec<Item>,
    c: &FunctionContext,
    op: UnaryOperation,
    x: u32,
    o: Operand,
) -> Result<(), NoMemory>
    ensures { OnOk result (Puts items.old items.new (items_of c.now (tac.unary op x o))) }
{
    let from = put_operand(items, c, Register::A0, o)?;
    put(items, unary_instruction(op, result_register(c, x), from))?;
    put_result(items, c, x)
}

fn put_operation(
    items: &mut Vec<Item>,
    c: &FunctionContext,
    op: BinaryOperation,
    x: u32,
    left: Operand,
    right: Operand,
) -> Result<(), NoMemory>
    ensures { OnOk result (Puts items.old items.new (items_of c.now (tac.binary op x left right))) }
{
    put_binary(items, c, op, result_register(c, x), left, right)?;
    put_result(items, c, x)
}

fn put_converted(
    items: &mut Vec<Item>,
    c: &FunctionContext,
    s: Scalar,
    x: u32,
    o: Operand,
) -> Result<(), NoMemory>
    ensures { OnOk result (Puts items.old items.new (items_of c.now (tac.convert s x o))) }
{
    let from = put_operand(items, c, Register::A0, o)?;
    put(items, conversion(s, result_register(c, x), from))?;
    put_result(items, c, x)
}

fn put_address_of(
    items: &mut Vec<Item>,
    c: &FunctionContext,
    x: u32,
    p: Address,
) -> Result<(), NoMemory>
    ensures { OnOk result (Puts items.old items.new (items_of c.now (tac.address_of x p))) }
{
    put_address(items, c, result_register(c, x), p)?;
    put_result(items, c, x)
}

fn put_loaded(
    items: &mut Vec<Item>,
    c: &FunctionContext,
    s: Scalar,
    x: u32,
    p: Address,
) -> Result<(), NoMemory>
    ensures { OnOk result (Puts items.old items.new (items_of c.now (tac.load s x p))) }
{
    let at = put_anchor(items, c, p)?;
    put(
        items,
        load(
            load_kind(s),
            result_register(c, x),
            at.register,
            at.immediate,
        ),
    )?;
    put_result(items, c, x)
}

fn put_stored(
    items: &mut Vec<Item>,
    c: &FunctionContext,
    s: Scalar,
    p: Address,
    o: Operand,
) -> Result<(), NoMemory>
    ensures { OnOk result (Puts items.old items.new (items_of c.now (tac.store s p o))) }
{
    let at = put_anchor(items, c, p)?;
    let from = put_operand(items, c, Register::A4, o)?;
    put(items, store(store_kind(s), from, at.register, at.immediate))
}

// ---- returns

/// The result, or none, that the instruction returns, if it returns.
fn returned(i: &Instruction) -> Option<Option<Operand>>
    ensures { result ≡ spec.returned (instruction_tree i.now) }
{
    match i {
        Instruction::Move(_, _) => None,
        Instruction::Unary(_, _, _) => None,
        Instruction::Binary(_, _, _, _) => None,
        Instruction::Convert(_, _, _) => None,
        Instruction::AddressOf(_, _) => None,
        Instruction::Load(_, _, _) => None,
        Instruction::Store(_, _, _) => None,
        Instruction::Copy { .. } => None,
        Instruction::Fill(_, _) => None,
        Instruction::Call(_, _, _) => None,
        Instruction::Jump(_) => None,
        Instruction::Branch(_, _) => None,
        Instruction::Return(o) => Some(*o),
    }
}

/// Whether the code ends with a return.
pub fn ends_with_return(code: &[Instruction]) -> bool
    ensures { result ≡ spec.ends_from false (map instruction_tree code.now) }
{
    let mut is_return = false;
    for i in code {
        is_return = returned(i).is_some();
    }
    is_return
}

fn put_returned(
    items: &mut Vec<Item>,
    c: &FunctionContext,
    o: Option<Operand>,
) -> Result<(), NoMemory>
    ensures { OnOk result (Emits items.old items.new (spec.result_into (context_tree c.now) o)) }
{
    match o {
        None => Ok(()),
        Some(o) => put_into(items, c, Register::A0, o),
    }
}

/// What goes to the epilogue, or the epilogue where each return has its own.
fn put_out(items: &mut Vec<Item>, c: &FunctionContext) -> Result<(), NoMemory>
    ensures { OnOk result (Puts items.old items.new (spec.go_out (context_tree c.now) (labels_tree c.now))) }
{
    if c.one_epilogue {
        let end = instruction_label(c, count(c.function.code.len())?)?;
        put_item(items, Item::Jump(Register::ZERO, end))
    } else {
        put_leave(items, c)
    }
}

fn put_return(
    items: &mut Vec<Item>,
    c: &FunctionContext,
    o: Option<Operand>,
) -> Result<(), NoMemory>
    ensures { OnOk result (Puts items.old items.new (items_of c.now (tac.return o))) }
{
    put_returned(items, c, o)?;
    put_out(items, c)
}

/// What stands behind the label at the function's end.
pub fn put_epilogue(items: &mut Vec<Item>, c: &FunctionContext) -> Result<(), NoMemory>
    ensures { OnOk result (Emits items.old items.new (spec.epilogue (context_tree c.now))) }
{
    if c.one_epilogue {
        put_leave(items, c)
    } else {
        Ok(())
    }
}

// ---- all of them

/// What the instruction becomes.
#[tactic(auto, using(crate::proofs::FitLaws::fill_fits))]
pub fn put_instruction(
    items: &mut Vec<Item>,
    c: &FunctionContext,
    i: &Instruction,
) -> Result<(), NoMemory>
    requires few { passes_few (instruction_tree i.now) ≡ true }
    requires fits { fits_in c.now (instruction_tree i.now) ≡ true }
    ensures { OnOk result (Puts items.old items.new (items_of c.now (instruction_tree i.now))) }
{
    match i {
        Instruction::Move(x, o) => put_move(items, c, *o, place(c, *x)),
        Instruction::Unary(op, x, o) => put_unary(items, c, *op, *x, *o),
        Instruction::Binary(op, x, o, p) => put_operation(items, c, *op, *x, *o, *p),
        Instruction::Convert(s, x, o) => put_converted(items, c, *s, *x, *o),
        Instruction::AddressOf(x, p) => put_address_of(items, c, *x, *p),
        Instruction::Load(s, x, p) => put_loaded(items, c, *s, *x, *p),
        Instruction::Store(s, p, o) => put_stored(items, c, *s, *p, *o),
        Instruction::Copy {
            size,
            alignment,
            to,
            from,
        } => put_copy(items, c, *size, *alignment, *to, *from),
        Instruction::Fill(blank, p) => put_fill(items, c, blank, *p),
        Instruction::Call(x, callee, arguments) => put_call(items, c, *x, *callee, arguments),
        Instruction::Jump(to) => {
            put_item(
                items,
                Item::Jump(Register::ZERO, instruction_label(c, *to)?),
            )
        }
        Instruction::Branch(condition, to) => {
            put_branch(items, c, *condition, instruction_label(c, *to)?)
        }
        Instruction::Return(o) => put_return(items, c, *o),
    }
}

/// What the instruction becomes at the end of the code: a return needs no jump there.
pub fn put_last(items: &mut Vec<Item>, c: &FunctionContext, i: &Instruction) -> Result<(), NoMemory>
    requires few { passes_few (instruction_tree i.now) ≡ true }
    requires fits { fits_in c.now (instruction_tree i.now) ≡ true }
    ensures { OnOk result (Puts items.old items.new (placed_items c.now true (instruction_tree i.now))) }
{
    match returned(i) {
        None => put_instruction(items, c, i),
        Some(o) => put_returned(items, c, o),
    }
}
