// Calls.
ghost use Rattle.std.specs.Prelude.{◌≤◌, ◌<◌, OnOk, length};
ghost use Rattle.qs_emit_selection.specs.ContextOf.{context_tree as tree, labels_tree, call_items};
ghost use Rattle.qs_emit_selection.specs.ContextOf.{in_register, on_stack};
ghost use Rattle.qs_emit_selection.specs.Emission as spec;
ghost use Rattle.qs_emit_selection.specs.Limits.{most_arguments};
ghost use Rattle.qs_emit_selection.specs.Puts.{Puts, Emits};

use crate::arguments::{argument_offset, argument_register, has_register};
use crate::context::FunctionContext;
use crate::immediates::below;
use crate::labels::function_label;
use crate::mnemonics::{addi, store};
use crate::operands::{put_into, put_operand, put_value};
use crate::pieces::{put, put_item};
use qs_asm::Item;
use qs_base::NoMemory;
use qs_calls::Callee;
use qs_isa::{Instr, PUT_BYTE_CALL, Register, StoreKind, TAKE_BYTE_CALL};
use qs_tac::Operand;

/// An argument that is passed on the stack, into its word.
fn put_stack_argument(
    items: &mut Vec<Item>,
    c: &FunctionContext,
    i: usize,
    argument: Operand,
) -> Result<(), NoMemory>
    requires { i < most_arguments }
    ensures { OnOk result (Emits items.old items.new (on_stack c.now i argument)) }
{
    if has_register(i) {
        return Ok(());
    }
    let from = put_operand(items, c, Register::A0, argument)?;
    put(
        items,
        store(StoreKind::Sw, from, Register::SP, below(argument_offset(i))),
    )
}

fn put_on_stack(
    items: &mut Vec<Item>,
    c: &FunctionContext,
    arguments: &[Operand],
) -> Result<(), NoMemory>
    requires { length arguments.now ≤ most_arguments }
    ensures { OnOk result (Emits items.old items.new (spec.pass_on_stack (tree c.now) 0 arguments.now)) }
{
    for (i, argument) in arguments.iter().enumerate() {
        put_stack_argument(items, c, i, *argument)?;
    }
    Ok(())
}

/// An argument that is passed in a register, into it.
fn put_register_argument(
    items: &mut Vec<Item>,
    c: &FunctionContext,
    i: usize,
    argument: Operand,
) -> Result<(), NoMemory>
    ensures { OnOk result (Emits items.old items.new (in_register c.now i argument)) }
{
    if has_register(i) {
        put_into(items, c, argument_register(i), argument)
    } else {
        Ok(())
    }
}

fn put_in_registers(
    items: &mut Vec<Item>,
    c: &FunctionContext,
    arguments: &[Operand],
) -> Result<(), NoMemory>
    ensures { OnOk result (Emits items.old items.new (spec.pass_in_registers (tree c.now) 0 arguments.now)) }
{
    for (i, argument) in arguments.iter().enumerate() {
        put_register_argument(items, c, i, *argument)?;
    }
    Ok(())
}

/// A call of the environment by its number.
pub fn put_environment(items: &mut Vec<Item>, number: u32) -> Result<(), NoMemory>
    requires { number < 2048 }
    ensures { OnOk result (Emits items.old items.new (spec.environment number)) }
{
    put(items, addi(Register::A7, Register::ZERO, below(number)))?;
    put(items, Instr::Ecall)
}

fn put_go(items: &mut Vec<Item>, c: &FunctionContext, callee: Callee) -> Result<(), NoMemory>
    ensures { OnOk result (Puts items.old items.new (spec.goes_to (labels_tree c.now) callee)) }
{
    match callee {
        Callee::Function(f) => { put_item(items, Item::Jump(Register::RA, function_label(c, f))) }
        Callee::PutChar => put_environment(items, PUT_BYTE_CALL),
        Callee::GetChar => put_environment(items, TAKE_BYTE_CALL),
    }
}

fn put_taken(items: &mut Vec<Item>, c: &FunctionContext, x: Option<u32>) -> Result<(), NoMemory>
    ensures { OnOk result (Emits items.old items.new (spec.take_result (tree c.now) x)) }
{
    match x {
        None => Ok(()),
        Some(x) => put_value(items, c, Register::A0, x),
    }
}

/// A call with these arguments, whose result goes into the temporary.
pub fn put_call(
    items: &mut Vec<Item>,
    c: &FunctionContext,
    x: Option<u32>,
    callee: Callee,
    arguments: &[Operand],
) -> Result<(), NoMemory>
    requires { length arguments.now ≤ most_arguments }
    ensures { OnOk result (Puts items.old items.new (call_items c.now x callee arguments.now)) }
{
    put_on_stack(items, c, arguments)?;
    put_in_registers(items, c, arguments)?;
    put_go(items, c, callee)?;
    put_taken(items, c, x)
}
