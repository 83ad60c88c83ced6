// The instructions, a variant for each format.
use crate::{BranchOffset, Immediate, JumpOffset, Register, ShiftAmount, UpperImmediate};

/// The conditional branches (section 2.5).
#[derive(Clone, Copy, Debug)]
pub enum BranchKind {
    Beq,
    Bne,
    Blt,
    Bge,
    Bltu,
    Bgeu,
}

/// The loads (section 2.6).
#[derive(Clone, Copy, Debug)]
pub enum LoadKind {
    Lb,
    Lh,
    Lw,
    Lbu,
    Lhu,
}

/// The stores (section 2.6).
#[derive(Clone, Copy, Debug)]
pub enum StoreKind {
    Sb,
    Sh,
    Sw,
}

/// The operations on a register and an immediate, but for the shifts (section 2.4).
#[derive(Clone, Copy, Debug)]
pub enum OpImmKind {
    Addi,
    Slti,
    Sltiu,
    Xori,
    Ori,
    Andi,
}

/// The shifts by a fixed amount (section 2.4).
#[derive(Clone, Copy, Debug)]
pub enum ShiftImmKind {
    Slli,
    Srli,
    Srai,
}

/// The operations on two registers (sections 2.4, 7.1 and 7.2).
#[derive(Clone, Copy, Debug)]
pub enum OpKind {
    Add,
    Sub,
    Sll,
    Slt,
    Sltu,
    Xor,
    Srl,
    Sra,
    Or,
    And,
    Mul,
    Mulh,
    Mulhsu,
    Mulhu,
    Div,
    Divu,
    Rem,
    Remu,
}

/// An instruction of RV32IM (chapter 24). `rd` is the register that is written, `rs1` and `rs2` are
/// read.
#[derive(Clone, Copy, Debug)]
pub enum Instr {
    /// `rd` becomes the immediate.
    Lui {
        rd: Register,
        immediate: UpperImmediate,
    },
    /// `rd` becomes the pc plus the immediate.
    Auipc {
        rd: Register,
        immediate: UpperImmediate,
    },
    /// Goes to the pc plus the offset; `rd` becomes the address after this instruction.
    Jal {
        rd: Register,
        offset: JumpOffset,
    },
    /// Goes to `rs1` plus the offset, its lowest bit cleared; `rd` as in `Jal`.
    Jalr {
        rd: Register,
        rs1: Register,
        offset: Immediate,
    },
    /// Goes to the pc plus the offset where `rs1` and `rs2` compare so.
    Branch {
        kind: BranchKind,
        rs1: Register,
        rs2: Register,
        offset: BranchOffset,
    },
    /// Reads memory at `rs1` plus the offset into `rd`.
    Load {
        kind: LoadKind,
        rd: Register,
        rs1: Register,
        offset: Immediate,
    },
    /// Writes `rs2` to memory at `rs1` plus the offset.
    Store {
        kind: StoreKind,
        rs1: Register,
        rs2: Register,
        offset: Immediate,
    },
    /// An operation on `rs1` and the immediate.
    OpImm {
        kind: OpImmKind,
        rd: Register,
        rs1: Register,
        immediate: Immediate,
    },
    /// A shift of `rs1` by the amount.
    ShiftImm {
        kind: ShiftImmKind,
        rd: Register,
        rs1: Register,
        amount: ShiftAmount,
    },
    /// An operation on `rs1` and `rs2`.
    Op {
        kind: OpKind,
        rd: Register,
        rs1: Register,
        rs2: Register,
    },
    /// Orders memory accesses: no operation on one hart (section 2.7).
    Fence,
    /// Calls the environment (section 2.8).
    Ecall,
    /// Stops for a debugger (section 2.8).
    Ebreak,
}
