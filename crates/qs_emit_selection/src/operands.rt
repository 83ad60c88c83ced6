// How operands are made, and where results go.
ghost use Rattle.std.specs.Prelude.{◌≡◌, true, OnOk, IfOk};
ghost use Rattle.qs_tac.specs.Places.{place_of};
ghost use Rattle.qs_emit_selection.specs.ContextOf.{context_tree as tree};
ghost use Rattle.qs_emit_selection.specs.Limits.{place_fits};
ghost use Rattle.qs_emit_selection.specs.Operands as spec;
ghost use Rattle.qs_emit_selection.specs.Puts.{Emits};

use crate::context::FunctionContext;
use crate::immediates::below;
use crate::mnemonics::{addi, andi};
use crate::pieces::{put, put_address_in_frame, put_constant, put_load, put_store};
use qs_asm::Item;
use qs_base::NoMemory;
use qs_isa::{LoadKind, Register, StoreKind};
use qs_tac::{Operand, Place};

// ---- what the function has

/// Where the temporary stands.
#[tactic(auto, using(crate::proofs::ContextLaws::place_is_fit))]
pub fn place(c: &FunctionContext, t: u32) -> Place
    ensures is { result ≡ place_of (tree c.now).places t }
    ensures fits { place_fits result ≡ true }
{
    match c.places.at.get(t as usize) {
        None => Place::Slot(t),
        Some(place) => *place,
    }
}

/// The offset of the slot from x2.
pub fn slot_offset(c: &FunctionContext, slot: u32) -> u32
    ensures { result ≡ spec.slot_offset (tree c.now) slot }
{
    c.slots.start(slot)
}

/// The offset of the placed block from x2.
pub fn local_offset(c: &FunctionContext, block: u32) -> u32
    ensures { result ≡ spec.local_offset (tree c.now) block }
{
    c.blocks.start(block)
}

/// The address of the block of data.
pub fn data_address(c: &FunctionContext, block: u32) -> u32
    ensures { result ≡ (tree c.now).data_at block }
{
    c.data_starts.start(block)
}

// ---- registers

/// The register in which a place is, if it is in one.
pub fn register_of(place: Place) -> Option<Register>
    requires { place_fits place ≡ true }
    ensures { result ≡ spec.register_of place }
{
    match place {
        Place::Slot(_) => None,
        Place::Register(r) => Some(Register::new(r as u8)),
    }
}

/// The register in which an operand stands already, if it does.
fn stands_in(c: &FunctionContext, o: Operand) -> Option<Register>
    ensures { result ≡ spec.stands_in (tree c.now) o }
{
    match o {
        Operand::Temporary(t) => register_of(place(c, t)),
        Operand::Integer(t) => register_of(place(c, t)),
        Operand::Byte(_) => None,
        Operand::Constant(n) => { if n == 0 { Some(Register::ZERO) } else { None } }
        Operand::Null => Some(Register::ZERO),
        Operand::Local(_) => None,
        Operand::Data(_) => None,
    }
}

// ---- operands

fn put_place_into(
    items: &mut Vec<Item>,
    c: &FunctionContext,
    rd: Register,
    place: Place,
) -> Result<(), NoMemory>
    requires { place_fits place ≡ true }
    ensures { OnOk result (Emits items.old items.new (spec.place_into (tree c.now) rd place)) }
{
    match place {
        Place::Slot(k) => put_load(items, LoadKind::Lw, rd, slot_offset(c, k)),
        Place::Register(r) => put(items, addi(rd, Register::new(r as u8), below(0))),
    }
}

fn put_byte_into(
    items: &mut Vec<Item>,
    c: &FunctionContext,
    rd: Register,
    place: Place,
) -> Result<(), NoMemory>
    requires { place_fits place ≡ true }
    ensures { OnOk result (Emits items.old items.new (spec.byte_into (tree c.now) rd place)) }
{
    match place {
        Place::Slot(k) => put_load(items, LoadKind::Lbu, rd, slot_offset(c, k)),
        Place::Register(r) => put(items, andi(rd, Register::new(r as u8), below(255))),
    }
}

/// An operand into a register.
pub fn put_into(
    items: &mut Vec<Item>,
    c: &FunctionContext,
    rd: Register,
    o: Operand,
) -> Result<(), NoMemory>
    ensures { OnOk result (Emits items.old items.new (spec.into (tree c.now) rd o)) }
{
    match o {
        Operand::Temporary(t) => put_place_into(items, c, rd, place(c, t)),
        Operand::Integer(t) => put_place_into(items, c, rd, place(c, t)),
        Operand::Byte(t) => put_byte_into(items, c, rd, place(c, t)),
        Operand::Constant(n) => put_constant(items, rd, n),
        Operand::Null => put(items, addi(rd, Register::ZERO, below(0))),
        Operand::Local(i) => put_address_in_frame(items, rd, local_offset(c, i)),
        Operand::Data(i) => put_constant(items, rd, data_address(c, i)),
    }
}

/// An operand in some register: the one in which it stands, or the one that is free.
pub fn put_operand(
    items: &mut Vec<Item>,
    c: &FunctionContext,
    free: Register,
    o: Operand,
) -> Result<Register, NoMemory>
    ensures code { OnOk result (Emits items.old items.new (spec.operand_code (tree c.now) free o)) }
    ensures register { IfOk result (λ r. r ≡ spec.operand_register (tree c.now) free o) }
{
    match stands_in(c, o) {
        None => {
            put_into(items, c, free, o)?;
            Ok(free)
        }
        Some(r) => Ok(r),
    }
}

// ---- results

/// The register in which a result is made.
pub fn result_register(c: &FunctionContext, x: u32) -> Register
    ensures { result ≡ spec.result_register (tree c.now) x }
{
    match register_of(place(c, x)) {
        None => Register::A0,
        Some(r) => r,
    }
}

fn put_in_place(
    items: &mut Vec<Item>,
    c: &FunctionContext,
    rs: Register,
    place: Place,
) -> Result<(), NoMemory>
    requires { place_fits place ≡ true }
    ensures { OnOk result (Emits items.old items.new (spec.put_place (tree c.now) rs place)) }
{
    match place {
        Place::Slot(k) => put_store(items, StoreKind::Sw, rs, slot_offset(c, k)),
        Place::Register(r) => put(items, addi(Register::new(r as u8), rs, below(0))),
    }
}

/// A register into the place of a temporary.
pub fn put_value(
    items: &mut Vec<Item>,
    c: &FunctionContext,
    rs: Register,
    x: u32,
) -> Result<(), NoMemory>
    ensures { OnOk result (Emits items.old items.new (spec.put (tree c.now) rs x)) }
{
    put_in_place(items, c, rs, place(c, x))
}

/// A result, where it was made in a0, into its slot.
pub fn put_result(items: &mut Vec<Item>, c: &FunctionContext, x: u32) -> Result<(), NoMemory>
    ensures { OnOk result (Emits items.old items.new (spec.result_code (tree c.now) x)) }
{
    match register_of(place(c, x)) {
        None => put_value(items, c, Register::A0, x),
        Some(_) => Ok(()),
    }
}

/// An operand into a place.
pub fn put_move(
    items: &mut Vec<Item>,
    c: &FunctionContext,
    o: Operand,
    place: Place,
) -> Result<(), NoMemory>
    requires { place_fits place ≡ true }
    ensures { OnOk result (Emits items.old items.new (spec.move_to (tree c.now) o place)) }
{
    match place {
        Place::Slot(k) => {
            let from = put_operand(items, c, Register::A0, o)?;
            put_store(items, StoreKind::Sw, from, slot_offset(c, k))
        }
        Place::Register(r) => put_into(items, c, Register::new(r as u8), o),
    }
}
