// Short pieces of machine code that the code of instructions is put together from.
ghost use Rattle.std.specs.Prelude.{◌≡◌, ◌<◌, [], ◌∷◌, OnOk};
ghost use Rattle.qs_isa.specs.Registers.{a5, a7};
ghost use Rattle.qs_emit_selection.specs.Pieces as spec;
ghost use Rattle.qs_emit_selection.specs.Puts.{Puts, Emits};

use crate::immediates::{below, high, is_near, is_small, low, near, small};
use crate::mnemonics::{add, addi, load, lui, mul, slli, store};
use qs_asm::Item;
use qs_base::NoMemory;
use qs_isa::{
    BranchKind, BranchOffset, Immediate, Instr, LoadKind, Register, ShiftAmount, StoreKind,
};
use qs_memory::Scalar;

/// Puts an instruction behind the items.
pub fn put(items: &mut Vec<Item>, i: Instr) -> Result<(), NoMemory>
    ensures { OnOk result (Emits items.old items.new (i ∷ [])) }
{
    items.push(Item::Plain(i))?;
    Ok(())
}

/// Puts an item behind the others.
pub fn put_item(items: &mut Vec<Item>, item: Item) -> Result<(), NoMemory>
    ensures { OnOk result (Puts items.old items.new (item ∷ [])) }
{
    // the check knows what an item holds only where the code names an instruction of it
    if let Item::Plain(i) = item {
        return put(items, i);
    }
    items.push(item)?;
    Ok(())
}

// ---- kinds of accesses

/// How a value of the type is read.
pub fn load_kind(s: Scalar) -> LoadKind
    ensures { result ≡ spec.load_kind s }
{
    match s {
        Scalar::Char => LoadKind::Lbu,
        Scalar::Int => LoadKind::Lw,
        Scalar::Unsigned => LoadKind::Lw,
        Scalar::Pointer => LoadKind::Lw,
    }
}

/// How a value of the type is written.
pub fn store_kind(s: Scalar) -> StoreKind
    ensures { result ≡ spec.store_kind s }
{
    match s {
        Scalar::Char => StoreKind::Sb,
        Scalar::Int => StoreKind::Sw,
        Scalar::Unsigned => StoreKind::Sw,
        Scalar::Pointer => StoreKind::Sw,
    }
}

// ---- constants

/// A word into a register.
pub fn put_constant(items: &mut Vec<Item>, rd: Register, word: u32) -> Result<(), NoMemory>
    ensures { OnOk result (Emits items.old items.new (spec.constant rd word)) }
{
    if is_small(word) {
        put(items, addi(rd, Register::ZERO, small(word)))
    } else if low(word).word() == 0 {
        put(items, lui(rd, high(word)))
    } else {
        put(items, lui(rd, high(word)))?;
        put(items, addi(rd, rd, low(word)))
    }
}

// ---- the frame

/// From an offset behind x2.
pub fn put_load(
    items: &mut Vec<Item>,
    kind: LoadKind,
    rd: Register,
    offset: u32,
) -> Result<(), NoMemory>
    ensures { OnOk result (Emits items.old items.new (spec.load_from kind rd offset)) }
{
    if is_near(offset) {
        put(items, load(kind, rd, Register::SP, near(offset)))
    } else {
        put(items, lui(rd, high(offset)))?;
        put(items, add(rd, rd, Register::SP))?;
        put(items, load(kind, rd, rd, low(offset)))
    }
}

/// To an offset behind x2.
pub fn put_store(
    items: &mut Vec<Item>,
    kind: StoreKind,
    rs: Register,
    offset: u32,
) -> Result<(), NoMemory>
    ensures { OnOk result (Emits items.old items.new (spec.store_to kind rs offset)) }
{
    if is_near(offset) {
        put(items, store(kind, rs, Register::SP, near(offset)))
    } else {
        put(items, lui(Register::RA, high(offset)))?;
        put(items, add(Register::RA, Register::RA, Register::SP))?;
        put(items, store(kind, rs, Register::RA, low(offset)))
    }
}

/// The address of an offset behind x2.
pub fn put_address_in_frame(
    items: &mut Vec<Item>,
    rd: Register,
    offset: u32,
) -> Result<(), NoMemory>
    ensures { OnOk result (Emits items.old items.new (spec.address_in_frame rd offset)) }
{
    if is_near(offset) {
        put(items, addi(rd, Register::SP, near(offset)))
    } else {
        put_constant(items, rd, offset)?;
        put(items, add(rd, rd, Register::SP))
    }
}

/// x2 moves by a word.
pub fn put_move_stack(items: &mut Vec<Item>, word: u32) -> Result<(), NoMemory>
    ensures { OnOk result (Emits items.old items.new (spec.move_stack word)) }
{
    if is_small(word) {
        put(items, addi(Register::SP, Register::SP, small(word)))
    } else {
        put_constant(items, Register::T0, word)?;
        put(items, add(Register::SP, Register::SP, Register::T0))
    }
}

// ---- products

fn shift_of(number: u32) -> Option<ShiftAmount>
    ensures { result ≡ spec.shift_of number }
{
    for exponent in 1u8..32 {
        if 1 << exponent == number {
            return Some(ShiftAmount::new(exponent));
        }
    }
    None
}

/// A register times a number of at least 2, in another register.
pub fn put_product(
    items: &mut Vec<Item>,
    rd: Register,
    rs: Register,
    number: u32,
) -> Result<(), NoMemory>
    ensures { OnOk result (Emits items.old items.new (spec.product rd rs number)) }
{
    match shift_of(number) {
        Some(amount) => put(items, slli(rd, rs, amount)),
        None => {
            put_constant(items, rd, number)?;
            put(items, mul(rd, rd, rs))
        }
    }
}

// ---- loops over bytes, in steps of a width; a5 goes up to a7

fn put_loop_end(items: &mut Vec<Item>, size: u32) -> Result<(), NoMemory>
    ensures { OnOk result (Emits items.old items.new (spec.loop_end size)) }
{
    put_constant(items, Register::A7, size)?;
    put(items, add(Register::A7, Register::A7, Register::A5))
}

fn back_to(offset: BranchOffset) -> Instr
    ensures { result ≡ spec.bne a5 a7 offset }
{
    Instr::Branch {
        kind: BranchKind::Bne,
        rs1: Register::A5,
        rs2: Register::A7,
        offset,
    }
}

/// From where a6 points to where a5 points.
pub fn put_copy_loop(
    items: &mut Vec<Item>,
    from: LoadKind,
    to: StoreKind,
    width: Immediate,
    size: u32,
) -> Result<(), NoMemory>
    ensures { OnOk result (Emits items.old items.new (spec.copy_loop from to width size)) }
{
    put_loop_end(items, size)?;
    put(items, load(from, Register::A4, Register::A6, below(0)))?;
    put(items, addi(Register::A6, Register::A6, width))?;
    put(items, store(to, Register::A4, Register::A5, below(0)))?;
    put(items, addi(Register::A5, Register::A5, width))?;
    put(items, back_to(BranchOffset::new(0xffff_fff0)))
}

/// Zeros to where a5 points.
pub fn put_fill_loop(
    items: &mut Vec<Item>,
    to: StoreKind,
    width: Immediate,
    size: u32,
) -> Result<(), NoMemory>
    ensures { OnOk result (Emits items.old items.new (spec.fill_loop to width size)) }
{
    put_loop_end(items, size)?;
    put(items, store(to, Register::ZERO, Register::A5, below(0)))?;
    put(items, addi(Register::A5, Register::A5, width))?;
    put(items, back_to(BranchOffset::new(0xffff_fff8)))
}

/// So many zero bytes from where a5 points on.
pub fn put_zero_bytes(items: &mut Vec<Item>, count: u32) -> Result<(), NoMemory>
    requires { count < 2048 }
    ensures { OnOk result (Emits items.old items.new (spec.zero_bytes count 0)) }
{
    for offset in 0..count {
        put(
            items,
            store(StoreKind::Sb, Register::ZERO, Register::A5, below(offset)),
        )?;
    }
    Ok(())
}
