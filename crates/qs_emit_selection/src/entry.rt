// The entry of a function, and the return from it.
ghost use Rattle.std.specs.Prelude.{◌≡◌, ◌<◌, ◌≤◌, ◌-◌, ◌^◌, OnOk, All, length};
ghost use Rattle.qs_frames.specs.Layout.{largest_frame, register_at};
ghost use Rattle.qs_emit_selection.specs.ContextOf.{context_tree as tree};
ghost use Rattle.qs_emit_selection.specs.ContextOf.{from_register, from_stack};
ghost use Rattle.qs_emit_selection.specs.ContextOf.{parameter_code, parameters_code};
ghost use Rattle.qs_emit_selection.specs.Emission as spec;
ghost use Rattle.qs_emit_selection.specs.Limits.{most_arguments};
ghost use Rattle.qs_emit_selection.specs.Operands.{frame_of, stored};
ghost use Rattle.qs_emit_selection.specs.Puts.{Emits};

use crate::arguments::{argument_offset, argument_register, has_register};
use crate::context::FunctionContext;
use crate::immediates::below;
use crate::mnemonics::{jalr, load, store};
use crate::operands::{local_offset, put_result, put_value, result_register};
use crate::pieces::{put, put_load, put_move_stack, put_store, store_kind};
use qs_asm::Item;
use qs_base::{NoMemory, sub32};
use qs_calls::Parameter;
use qs_isa::{Immediate, LoadKind, Register, StoreKind};

// ---- registers that are stored

fn stored_registers<'a>(c: &'a FunctionContext) -> &'a [u32]
    ensures are { result.now ≡ stored (tree c.now) }
    ensures few { length result.now ≤ 13 }
    ensures registers { All (λ r. r < 32) result.now }
{
    c.stored
}

/// The bytes that the frame has for arguments, before these registers.
fn outgoing(c: &FunctionContext) -> u32
    ensures are { result ≡ (frame_of (tree c.now)).outgoing }
    ensures few { result ≤ 32 }
{
    c.frame.outgoing
}

/// Where a register stands in the frame, behind so many bytes.
fn place_of_register(outgoing: u32, i: usize) -> Immediate
    requires few { outgoing ≤ 32 }
    requires number { i < 13 }
    ensures { result ≡ register_at outgoing i }
{
    below(outgoing + 4 * i as u32)
}

/// The registers, into their words of the frame.
fn put_save(items: &mut Vec<Item>, outgoing: u32, registers: &[u32]) -> Result<(), NoMemory>
    requires before { outgoing ≤ 32 }
    requires few { length registers.now ≤ 13 }
    requires registers { All (λ r. r < 32) registers.now }
    ensures { OnOk result (Emits items.old items.new (spec.save outgoing registers.now 0)) }
{
    for (i, register) in registers.iter().enumerate() {
        let at = place_of_register(outgoing, i);
        put(
            items,
            store(
                StoreKind::Sw,
                Register::new(*register as u8),
                Register::SP,
                at,
            ),
        )?;
    }
    Ok(())
}

/// The registers, from their words of the frame, the last one first.
fn put_restore(items: &mut Vec<Item>, outgoing: u32, registers: &[u32]) -> Result<(), NoMemory>
    requires before { outgoing ≤ 32 }
    requires few { length registers.now ≤ 13 }
    requires registers { All (λ r. r < 32) registers.now }
    ensures { OnOk result (Emits items.old items.new (spec.restore outgoing registers.now 0)) }
{
    let mut i = registers.len();
    while i > 0 {
        i -= 1;
        let at = place_of_register(outgoing, i);
        put(
            items,
            load(
                LoadKind::Lw,
                Register::new(registers[i] as u8),
                Register::SP,
                at,
            ),
        )?;
    }
    Ok(())
}

// ---- parameters

/// A parameter from the register in which its argument is passed.
fn put_from_register(
    items: &mut Vec<Item>,
    c: &FunctionContext,
    register: Register,
    parameter: Parameter,
) -> Result<(), NoMemory>
    ensures { OnOk result (Emits items.old items.new (from_register c.now register parameter)) }
{
    match parameter {
        Parameter::Plain(x) => put_value(items, c, register, x),
        Parameter::Placed(i, s) => put_store(items, store_kind(s), register, local_offset(c, i)),
    }
}

/// A parameter from the word in which its argument is passed, at an offset behind x2.
fn put_from_stack(
    items: &mut Vec<Item>,
    c: &FunctionContext,
    offset: u32,
    parameter: Parameter,
) -> Result<(), NoMemory>
    ensures { OnOk result (Emits items.old items.new (from_stack c.now offset parameter)) }
{
    match parameter {
        Parameter::Plain(x) => {
            put_load(items, LoadKind::Lw, result_register(c, x), offset)?;
            put_result(items, c, x)
        }
        Parameter::Placed(i, s) => {
            put_load(items, LoadKind::Lw, Register::A0, offset)?;
            put_store(items, store_kind(s), Register::A0, local_offset(c, i))
        }
    }
}

/// The bytes of the frame, behind which lies the caller's.
fn cost(c: &FunctionContext) -> u32
    ensures is { result ≡ (frame_of (tree c.now)).cost }
    ensures most { result ≤ largest_frame }
{
    c.frame.cost
}

fn put_parameter(
    items: &mut Vec<Item>,
    c: &FunctionContext,
    i: usize,
    parameter: Parameter,
) -> Result<(), NoMemory>
    requires { i < most_arguments }
    ensures { OnOk result (Emits items.old items.new (parameter_code c.now i parameter)) }
{
    if has_register(i) {
        put_from_register(items, c, argument_register(i), parameter)
    } else {
        put_from_stack(items, c, cost(c) + argument_offset(i), parameter)
    }
}

fn put_parameters(
    items: &mut Vec<Item>,
    c: &FunctionContext,
    parameters: &[Parameter],
) -> Result<(), NoMemory>
    requires { length parameters.now ≤ most_arguments }
    ensures { OnOk result (Emits items.old items.new (parameters_code c.now parameters.now)) }
{
    for (i, parameter) in parameters.iter().enumerate() {
        put_parameter(items, c, i, *parameter)?;
    }
    Ok(())
}

// ---- both

fn downwards(bytes: u32) -> u32
    requires { 0 < bytes }
    ensures { result ≡ 2 ^ 32 - bytes }
{
    sub32(0, bytes)
}

/// What a function begins with.
pub fn put_enter(items: &mut Vec<Item>, c: &FunctionContext) -> Result<(), NoMemory>
    requires { length (tree c.now).function.parameters ≤ most_arguments }
    ensures { OnOk result (Emits items.old items.new (spec.enter (tree c.now))) }
{
    put_move_stack(items, downwards(c.frame.cost))?;
    put_save(items, outgoing(c), stored_registers(c))?;
    put_parameters(items, c, &c.function.parameters)
}

/// What a function ends with.
pub fn put_leave(items: &mut Vec<Item>, c: &FunctionContext) -> Result<(), NoMemory>
    ensures { OnOk result (Emits items.old items.new (spec.leave (tree c.now))) }
{
    put_restore(items, outgoing(c), stored_registers(c))?;
    put_move_stack(items, c.frame.cost)?;
    put(items, jalr(Register::ZERO, Register::RA, below(0)))
}
