// How addresses are made.
ghost use Rattle.std.specs.Prelude.{◌≡◌, ◌%◌, ◌^◌, OnOk, IfOk};
ghost use Rattle.qs_emit_selection.specs.ContextOf.{context_tree as tree};
ghost use Rattle.qs_emit_selection.specs.ContextOf.{reach_behind, base_anchor, address_anchor};
ghost use Rattle.qs_emit_selection.specs.Operands as spec;
ghost use Rattle.qs_emit_selection.specs.Puts.{Emits};

use crate::context::FunctionContext;
use crate::immediates::{high, is_near, is_small, low, near, small};
use crate::mnemonics::{add, addi, lui};
use crate::operands::{data_address, local_offset, put_operand};
use crate::pieces::{put, put_product};
use qs_asm::Item;
use qs_base::{NoMemory, add32, mul32};
use qs_isa::{Immediate, Register};
use qs_tac::{Address, Index, Operand, is_constant};

/// Where an address is: an immediate behind a register.
#[derive(Clone, Copy)]
pub struct Reach {
    pub register: Register,
    pub immediate: Immediate,
}

// ---- what is known

fn constant_count(o: Operand) -> u32
    ensures { result ≡ spec.constant_count o }
{
    match o {
        Operand::Constant(n) => n,
        Operand::Temporary(_) => 0,
        Operand::Integer(_) => 0,
        Operand::Byte(_) => 0,
        Operand::Null => 0,
        Operand::Local(_) => 0,
        Operand::Data(_) => 0,
    }
}

fn index_displacement(index: Option<Index>) -> u32
    ensures { result ≡ spec.index_displacement index % 2 ^ 32 }
{
    match index {
        None => 0,
        Some(index) => add32(
            mul32(constant_count(index.count), index.element),
            index.offset.unwrap_or(0),
        ),
    }
}

/// How far an address lies behind its base, but for a count that isn't constant.
fn displacement(p: Address) -> u32
    ensures { result ≡ spec.displacement p }
{
    add32(p.offset.unwrap_or(0), index_displacement(p.index))
}

// ---- bases

fn put_behind_frame(items: &mut Vec<Item>, offset: u32) -> Result<Reach, NoMemory>
    ensures code { OnOk result (Emits items.old items.new (spec.behind_frame offset).code) }
    ensures register { IfOk result (λ at. at.register ≡ (spec.behind_frame offset).register) }
    ensures immediate { IfOk result (λ at. at.immediate ≡ (spec.behind_frame offset).immediate) }
{
    if is_near(offset) {
        Ok(Reach {
            register: Register::SP,
            immediate: near(offset),
        })
    } else {
        put(items, lui(Register::A0, high(offset)))?;
        put(items, add(Register::A0, Register::A0, Register::SP))?;
        Ok(Reach {
            register: Register::A0,
            immediate: low(offset),
        })
    }
}

fn put_at_address(items: &mut Vec<Item>, address: u32) -> Result<Reach, NoMemory>
    ensures code { OnOk result (Emits items.old items.new (spec.at_address address).code) }
    ensures register { IfOk result (λ at. at.register ≡ (spec.at_address address).register) }
    ensures immediate { IfOk result (λ at. at.immediate ≡ (spec.at_address address).immediate) }
{
    put(items, lui(Register::A0, high(address)))?;
    Ok(Reach {
        register: Register::A0,
        immediate: low(address),
    })
}

fn put_behind_pointer(
    items: &mut Vec<Item>,
    c: &FunctionContext,
    distance: u32,
    o: Operand,
) -> Result<Reach, NoMemory>
    ensures code { OnOk result (Emits items.old items.new (reach_behind c.now distance o).code) }
    ensures register { IfOk result (λ r. r.register ≡ (reach_behind c.now distance o).register) }
    ensures immediate { IfOk result (λ r. r.immediate ≡ (reach_behind c.now distance o).immediate) }
{
    let pointer = put_operand(items, c, Register::A0, o)?;
    if is_small(distance) {
        Ok(Reach {
            register: pointer,
            immediate: small(distance),
        })
    } else {
        put(items, lui(Register::A2, high(distance)))?;
        put(items, add(Register::A2, Register::A2, pointer))?;
        Ok(Reach {
            register: Register::A2,
            immediate: low(distance),
        })
    }
}

fn put_base(
    items: &mut Vec<Item>,
    c: &FunctionContext,
    distance: u32,
    o: Operand,
) -> Result<Reach, NoMemory>
    ensures code { OnOk result (Emits items.old items.new (base_anchor c.now distance o).code) }
    ensures register { IfOk result (λ r. r.register ≡ (base_anchor c.now distance o).register) }
    ensures immediate { IfOk result (λ r. r.immediate ≡ (base_anchor c.now distance o).immediate) }
{
    match o {
        Operand::Temporary(_) => put_behind_pointer(items, c, distance, o),
        Operand::Integer(_) => put_behind_pointer(items, c, distance, o),
        Operand::Byte(_) => put_behind_pointer(items, c, distance, o),
        Operand::Constant(_) => put_behind_pointer(items, c, distance, o),
        Operand::Null => put_behind_pointer(items, c, distance, o),
        Operand::Local(i) => put_behind_frame(items, add32(local_offset(c, i), distance)),
        Operand::Data(i) => put_at_address(items, add32(data_address(c, i), distance)),
    }
}

// ---- elements

fn put_add_elements(
    items: &mut Vec<Item>,
    base: Register,
    count: Register,
    element: u32,
) -> Result<(), NoMemory>
    ensures { OnOk result (Emits items.old items.new (spec.add_elements base count element)) }
{
    if element == 1 {
        put(items, add(Register::A3, count, base))
    } else {
        put_product(items, Register::A3, count, element)?;
        put(items, add(Register::A3, Register::A3, base))
    }
}

fn put_element(
    items: &mut Vec<Item>,
    c: &FunctionContext,
    base: Register,
    index: Index,
) -> Result<(), NoMemory>
    ensures { OnOk result (Emits items.old items.new (spec.element_code (tree c.now) base index)) }
{
    let count = put_operand(items, c, Register::A1, index.count)?;
    put_add_elements(items, base, count, index.element)
}

/// An address as a register and an immediate.
pub fn put_anchor(items: &mut Vec<Item>, c: &FunctionContext, p: Address) -> Result<Reach, NoMemory>
    ensures code { OnOk result (Emits items.old items.new (address_anchor c.now p).code) }
    ensures register { IfOk result (λ r. r.register ≡ (address_anchor c.now p).register) }
    ensures immediate { IfOk result (λ r. r.immediate ≡ (address_anchor c.now p).immediate) }
{
    let at = put_base(items, c, displacement(p), p.base)?;
    match p.index {
        None => Ok(at),
        Some(index) => {
            if is_constant(index.count) {
                Ok(at)
            } else {
                put_element(items, c, at.register, index)?;
                Ok(Reach {
                    register: Register::A3,
                    immediate: at.immediate,
                })
            }
        }
    }
}

/// An address into a register.
pub fn put_address(
    items: &mut Vec<Item>,
    c: &FunctionContext,
    rd: Register,
    p: Address,
) -> Result<(), NoMemory>
    ensures { OnOk result (Emits items.old items.new (spec.address_into (tree c.now) rd p)) }
{
    let at = put_anchor(items, c, p)?;
    put(items, addi(rd, at.register, at.immediate))
}

// ---- addresses that are multiples of 4 wherever the frame lies

fn is_block(o: Operand) -> bool
    ensures { result ≡ spec.is_block o }
{
    match o {
        Operand::Local(_) => true,
        Operand::Data(_) => true,
        Operand::Temporary(_) => false,
        Operand::Integer(_) => false,
        Operand::Byte(_) => false,
        Operand::Constant(_) => false,
        Operand::Null => false,
    }
}

fn has_constant_index(index: Option<Index>) -> bool
    ensures { result ≡ spec.has_constant_index index }
{
    match index {
        None => true,
        Some(index) => is_constant(index.count),
    }
}

/// Whether the address is a multiple of 4 wherever the frame lies.
pub fn is_word_address(p: Address) -> bool
    ensures { result ≡ spec.is_word_address p }
{
    is_block(p.base) && has_constant_index(p.index) && displacement(p) % 4 == 0
}
