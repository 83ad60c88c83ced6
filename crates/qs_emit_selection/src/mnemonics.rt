// Instructions by their names in assembly.
ghost use Rattle.std.specs.Prelude.{◌≡◌};
ghost use Rattle.qs_emit_selection.specs.Pieces as spec;

use qs_isa::{
    Immediate, Instr, LoadKind, OpImmKind, OpKind, Register, ShiftAmount, ShiftImmKind, StoreKind,
    UpperImmediate,
};

/// rd becomes the immediate.
pub fn lui(rd: Register, immediate: UpperImmediate) -> Instr
    ensures { result ≡ spec.lui rd immediate }
{
    Instr::Lui { rd, immediate }
}

/// The sum with an immediate.
pub fn addi(rd: Register, rs1: Register, immediate: Immediate) -> Instr
    ensures { result ≡ spec.addi rd rs1 immediate }
{
    Instr::OpImm {
        kind: OpImmKind::Addi,
        rd,
        rs1,
        immediate,
    }
}

/// The bits of both, with an immediate.
pub fn andi(rd: Register, rs1: Register, immediate: Immediate) -> Instr
    ensures { result ≡ spec.andi rd rs1 immediate }
{
    Instr::OpImm {
        kind: OpImmKind::Andi,
        rd,
        rs1,
        immediate,
    }
}

/// The bits that differ, with an immediate.
pub fn xori(rd: Register, rs1: Register, immediate: Immediate) -> Instr
    ensures { result ≡ spec.xori rd rs1 immediate }
{
    Instr::OpImm {
        kind: OpImmKind::Xori,
        rd,
        rs1,
        immediate,
    }
}

/// 1 where the register is less than an immediate, both read without a sign.
pub fn sltiu(rd: Register, rs1: Register, immediate: Immediate) -> Instr
    ensures { result ≡ spec.sltiu rd rs1 immediate }
{
    Instr::OpImm {
        kind: OpImmKind::Sltiu,
        rd,
        rs1,
        immediate,
    }
}

/// A shift to the left.
pub fn slli(rd: Register, rs1: Register, amount: ShiftAmount) -> Instr
    ensures { result ≡ spec.slli rd rs1 amount }
{
    Instr::ShiftImm {
        kind: ShiftImmKind::Slli,
        rd,
        rs1,
        amount,
    }
}

/// An operation on two registers.
pub fn on_registers(kind: OpKind, rd: Register, rs1: Register, rs2: Register) -> Instr
    ensures { result ≡ Instr.Op kind rd rs1 rs2 }
{
    Instr::Op { kind, rd, rs1, rs2 }
}

/// The sum.
pub fn add(rd: Register, rs1: Register, rs2: Register) -> Instr
    ensures { result ≡ spec.add rd rs1 rs2 }
{
    on_registers(OpKind::Add, rd, rs1, rs2)
}

/// The difference.
pub fn sub(rd: Register, rs1: Register, rs2: Register) -> Instr
    ensures { result ≡ spec.sub rd rs1 rs2 }
{
    on_registers(OpKind::Sub, rd, rs1, rs2)
}

/// 1 where the left one is less, both read with a sign.
pub fn slt(rd: Register, rs1: Register, rs2: Register) -> Instr
    ensures { result ≡ spec.slt rd rs1 rs2 }
{
    on_registers(OpKind::Slt, rd, rs1, rs2)
}

/// 1 where the left one is less, both read without a sign.
pub fn sltu(rd: Register, rs1: Register, rs2: Register) -> Instr
    ensures { result ≡ spec.sltu rd rs1 rs2 }
{
    on_registers(OpKind::Sltu, rd, rs1, rs2)
}

/// The product.
pub fn mul(rd: Register, rs1: Register, rs2: Register) -> Instr
    ensures { result ≡ spec.mul rd rs1 rs2 }
{
    on_registers(OpKind::Mul, rd, rs1, rs2)
}

/// The quotient, both read with a sign.
pub fn div(rd: Register, rs1: Register, rs2: Register) -> Instr
    ensures { result ≡ spec.div rd rs1 rs2 }
{
    on_registers(OpKind::Div, rd, rs1, rs2)
}

/// From memory at the base and the offset.
pub fn load(kind: LoadKind, rd: Register, base: Register, offset: Immediate) -> Instr
    ensures { result ≡ spec.load kind rd base offset }
{
    Instr::Load {
        kind,
        rd,
        rs1: base,
        offset,
    }
}

/// A register to memory at the base and the offset.
pub fn store(kind: StoreKind, rs: Register, base: Register, offset: Immediate) -> Instr
    ensures { result ≡ spec.store kind rs base offset }
{
    Instr::Store {
        kind,
        rs1: base,
        rs2: rs,
        offset,
    }
}

/// Goes to the address in a register.
pub fn jalr(rd: Register, rs1: Register, offset: Immediate) -> Instr
    ensures { result ≡ spec.jalr rd rs1 offset }
{
    Instr::Jalr { rd, rs1, offset }
}
