// Whole objects: copies and fills.
ghost use Rattle.std.specs.Prelude.{◌≡◌, ◌-◌, ◌^◌, ◌<◌, OnOk, map, min};
ghost use Rattle.qs_memory.specs.BlankOf.{blank_tree, joined_of};
ghost use Rattle.qs_memory.specs.Sizes.{blank_size};
ghost use Rattle.qs_emit_selection.specs.ContextOf.{copy_items, fill_items};
ghost use Rattle.qs_emit_selection.specs.Emission as spec;
ghost use Rattle.qs_emit_selection.specs.Puts.{Puts, Emits};

use crate::addresses::{is_word_address, put_address};
use crate::context::FunctionContext;
use crate::immediates::below;
use crate::pieces::{put_copy_loop, put_fill_loop, put_zero_bytes};
use qs_asm::Item;
use qs_base::NoMemory;
use qs_isa::{LoadKind, Register, StoreKind};
use qs_memory::Blank;
use qs_tac::Address;

// ---- sizes of blanks

/// The bytes of a blank, or 2^32 - 1 where they are more.
#[cycle(blank_bytes)]
fn blank_bytes(b: &Blank) -> u32
    ensures { result ≡ min (blank_size (blank_tree b.now)) (2 ^ 32 - 1) }
{
    match b {
        Blank::Zeros(n) => *n,
        Blank::Nulls(n) => n.saturating_mul(4),
        Blank::Repeated(n, part) => n.saturating_mul(blank_bytes(part)),
        Blank::Joined(parts) => joined_bytes(parts),
    }
}

#[cycle(blank_bytes)]
fn joined_bytes(parts: &[Blank]) -> u32
    ensures { result ≡ min (blank_size (joined_of (map blank_tree parts.now))) (2 ^ 32 - 1) }
{
    let mut size = 0u32;
    for part in parts {
        size = size.saturating_add(blank_bytes(part));
    }
    size
}

// ---- code

fn put_copy_code(items: &mut Vec<Item>, size: u32, alignment: u32) -> Result<(), NoMemory>
    ensures { OnOk result (Emits items.old items.new (spec.copy_code size alignment)) }
{
    if size == 0 {
        Ok(())
    } else if size % 4 == 0 && alignment % 4 == 0 {
        put_copy_loop(items, LoadKind::Lw, StoreKind::Sw, below(4), size)
    } else {
        put_copy_loop(items, LoadKind::Lbu, StoreKind::Sb, below(1), size)
    }
}

fn put_fill_words(items: &mut Vec<Item>, size: u32) -> Result<(), NoMemory>
    ensures { OnOk result (Emits items.old items.new (spec.fill_words size)) }
{
    if size / 4 == 0 {
        Ok(())
    } else {
        put_fill_loop(items, StoreKind::Sw, below(4), size / 4 * 4)
    }
}

fn put_fill_code(items: &mut Vec<Item>, is_word_address: bool, size: u32) -> Result<(), NoMemory>
    ensures { OnOk result (Emits items.old items.new (spec.fill_code is_word_address size)) }
{
    if is_word_address {
        put_fill_words(items, size)?;
        put_zero_bytes(items, size % 4)
    } else if size == 0 {
        Ok(())
    } else {
        put_fill_loop(items, StoreKind::Sb, below(1), size)
    }
}

/// So many bytes, aligned like this, to an address from another.
pub fn put_copy(
    items: &mut Vec<Item>,
    c: &FunctionContext,
    size: u32,
    alignment: u32,
    to: Address,
    from: Address,
) -> Result<(), NoMemory>
    ensures { OnOk result (Puts items.old items.new (copy_items c.now size alignment to from)) }
{
    put_address(items, c, Register::A5, to)?;
    put_address(items, c, Register::A6, from)?;
    put_copy_code(items, size, alignment)
}

/// A blank to an address.
pub fn put_fill(
    items: &mut Vec<Item>,
    c: &FunctionContext,
    blank: &Blank,
    to: Address,
) -> Result<(), NoMemory>
    requires { blank_size (blank_tree blank.now) < 2 ^ 32 }
    ensures { OnOk result (Puts items.old items.new (fill_items c.now (blank_tree blank.now) to)) }
{
    put_address(items, c, Register::A5, to)?;
    put_fill_code(items, is_word_address(to), blank_bytes(blank))
}
