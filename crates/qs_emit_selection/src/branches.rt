// Branches.
ghost use Rattle.std.specs.Prelude.{◌≡◌, OnOk};
ghost use Rattle.qs_emit_selection.specs.ContextOf.{context_tree as tree};
ghost use Rattle.qs_emit_selection.specs.Emission as spec;
ghost use Rattle.qs_emit_selection.specs.Emission.{compare_items, branch_items};
ghost use Rattle.qs_emit_selection.specs.Puts.{Puts};

use crate::context::FunctionContext;
use crate::operands::put_operand;
use crate::pieces::put_item;
use qs_asm::Item;
use qs_base::NoMemory;
use qs_isa::{BranchKind, Register};
use qs_memory::{Comparison, Signedness};
use qs_tac::{Condition, Operand};

fn less_branch(s: Signedness, left: Register, right: Register, label: u32) -> Item
    ensures { result ≡ spec.less_branch s left right label }
{
    match s {
        Signedness::Signed => Item::Branch(BranchKind::Blt, left, right, label),
        Signedness::Unsigned => Item::Branch(BranchKind::Bltu, left, right, label),
    }
}

fn not_less_branch(s: Signedness, left: Register, right: Register, label: u32) -> Item
    ensures { result ≡ spec.not_less_branch s left right label }
{
    match s {
        Signedness::Signed => Item::Branch(BranchKind::Bge, left, right, label),
        Signedness::Unsigned => Item::Branch(BranchKind::Bgeu, left, right, label),
    }
}

fn compare_branch(
    op: Comparison,
    s: Signedness,
    left: Register,
    right: Register,
    label: u32,
) -> Item
    ensures { result ≡ spec.compare_branch op s left right label }
{
    match op {
        Comparison::Less => less_branch(s, left, right, label),
        Comparison::LessOrEqual => not_less_branch(s, right, left, label),
        Comparison::Greater => less_branch(s, right, left, label),
        Comparison::GreaterOrEqual => not_less_branch(s, left, right, label),
        Comparison::Equal => Item::Branch(BranchKind::Beq, left, right, label),
        Comparison::NotEqual => Item::Branch(BranchKind::Bne, left, right, label),
    }
}

fn put_compare_branch(
    items: &mut Vec<Item>,
    c: &FunctionContext,
    op: Comparison,
    s: Signedness,
    x: Operand,
    y: Operand,
    label: u32,
) -> Result<(), NoMemory>
    ensures { OnOk result (Puts items.old items.new (compare_items (tree c.now) op s x y label)) }
{
    let left = put_operand(items, c, Register::A0, x)?;
    let right = put_operand(items, c, Register::A1, y)?;
    put_item(items, compare_branch(op, s, left, right, label))
}

/// A branch to the label where the condition holds.
pub fn put_branch(
    items: &mut Vec<Item>,
    c: &FunctionContext,
    condition: Condition,
    label: u32,
) -> Result<(), NoMemory>
    ensures { OnOk result (Puts items.old items.new (branch_items (tree c.now) condition label)) }
{
    match condition {
        Condition::NotZero(o) => {
            let register = put_operand(items, c, Register::A0, o)?;
            put_item(
                items,
                Item::Branch(BranchKind::Bne, register, Register::ZERO, label),
            )
        }
        Condition::Zero(o) => {
            let register = put_operand(items, c, Register::A0, o)?;
            put_item(
                items,
                Item::Branch(BranchKind::Beq, register, Register::ZERO, label),
            )
        }
        Condition::Compare(op, s, x, y) => put_compare_branch(items, c, op, s, x, y, label),
        Condition::ComparePointers(op, x, y) => put_compare_branch(
            items,
            c,
            op,
            Signedness::Unsigned,
            x,
            y,
            label,
        ),
    }
}
