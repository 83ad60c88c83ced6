// The results of the operations on words, by the kind of the instruction.
ghost use Rattle.std.specs.Prelude.{◌≡◌};
ghost use Rattle.qs_base.specs.Words as words;
ghost use Rattle.qs_machine.specs.Step.{op_imm_result, shift_result, op_result, is_taken};

use qs_base::{add32, divs32, divu32, mul32, rems32, remu32, sll32, sra32, srl32, sub32};
use qs_isa::{BranchKind, OpImmKind, OpKind, ShiftImmKind};

/// 1 where `a` is less than `b`, both read with a sign (section 2.4).
fn slt32(a: u32, b: u32) -> u32
    ensures { result ≡ words.slt a b }
{
    u32::from(a.cast_signed() < b.cast_signed())
}

/// 1 where `a` is less than `b` (section 2.4).
fn sltu32(a: u32, b: u32) -> u32
    ensures { result ≡ words.sltu a b }
{
    u32::from(a < b)
}

/// The upper word of the product of both, read with a sign (section 7.1).
fn mulh32(a: u32, b: u32) -> u32
    ensures { result ≡ words.mulh a b }
{
    let product = i64::from(a.cast_signed()) * i64::from(b.cast_signed());
    ((product >> 32) as i32).cast_unsigned()
}

/// The upper word of the product, `a` read with a sign (section 7.1).
fn mulhsu32(a: u32, b: u32) -> u32
    ensures { result ≡ words.mulhsu a b }
{
    let product = i64::from(a.cast_signed()) * i64::from(b);
    ((product >> 32) as i32).cast_unsigned()
}

/// The upper word of the product (section 7.1).
fn mulhu32(a: u32, b: u32) -> u32
    ensures { result ≡ words.mulhu a b }
{
    let product = u64::from(a) * u64::from(b);
    (product >> 32) as u32
}

/// The result of an operation on a register and an immediate.
pub fn op_imm_result(kind: OpImmKind, a: u32, b: u32) -> u32
    ensures { result ≡ op_imm_result kind a b }
{
    match kind {
        OpImmKind::Addi => add32(a, b),
        OpImmKind::Slti => slt32(a, b),
        OpImmKind::Sltiu => sltu32(a, b),
        OpImmKind::Xori => a ^ b,
        OpImmKind::Ori => a | b,
        OpImmKind::Andi => a & b,
    }
}

/// The result of a shift by a fixed amount.
pub fn shift_result(kind: ShiftImmKind, a: u32, b: u32) -> u32
    ensures { result ≡ shift_result kind a b }
{
    match kind {
        ShiftImmKind::Slli => sll32(a, b),
        ShiftImmKind::Srli => srl32(a, b),
        ShiftImmKind::Srai => sra32(a, b),
    }
}

/// The result of an operation on two registers.
pub fn op_result(kind: OpKind, a: u32, b: u32) -> u32
    ensures { result ≡ op_result kind a b }
{
    match kind {
        OpKind::Add => add32(a, b),
        OpKind::Sub => sub32(a, b),
        OpKind::Sll => sll32(a, b),
        OpKind::Slt => slt32(a, b),
        OpKind::Sltu => sltu32(a, b),
        OpKind::Xor => a ^ b,
        OpKind::Srl => srl32(a, b),
        OpKind::Sra => sra32(a, b),
        OpKind::Or => a | b,
        OpKind::And => a & b,
        OpKind::Mul => mul32(a, b),
        OpKind::Mulh => mulh32(a, b),
        OpKind::Mulhsu => mulhsu32(a, b),
        OpKind::Mulhu => mulhu32(a, b),
        OpKind::Div => divs32(a, b),
        OpKind::Divu => divu32(a, b),
        OpKind::Rem => rems32(a, b),
        OpKind::Remu => remu32(a, b),
    }
}

/// Whether a branch is taken.
pub fn is_taken(kind: BranchKind, a: u32, b: u32) -> bool
    ensures { result ≡ is_taken kind a b }
{
    match kind {
        BranchKind::Beq => a == b,
        BranchKind::Bne => a != b,
        BranchKind::Blt => a.cast_signed() < b.cast_signed(),
        BranchKind::Bge => a.cast_signed() >= b.cast_signed(),
        BranchKind::Bltu => a < b,
        BranchKind::Bgeu => a >= b,
    }
}
