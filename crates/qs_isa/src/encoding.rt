// From instructions to words.
ghost use Rattle.std.specs.Prelude.{◌≡◌, ◌<◌, Some};
ghost use Rattle.qs_isa.specs.Ranges.{IsSigned, IsOffset, IsUpper};
ghost use Rattle.qs_isa.specs.Table.{decode_of};
ghost use Rattle.qs_isa.specs.Encoding as words;

use crate::fields::bits;
use crate::kinds::{
    branch_funct3, load_funct3, op_funct3, op_funct7, op_imm_funct3, shift_imm_funct3,
    shift_imm_funct7, store_funct3,
};
use crate::{
    BranchOffset, Immediate, Instr, JumpOffset, OpKind, Register, ShiftAmount, ShiftImmKind,
    UpperImmediate,
};

/// The word of an instruction (chapter 24); of FENCE the one that orders all accesses.
#[tactic(auto, using(crate::proofs::RoundTrip::round_trip))]
pub fn encode(i: &Instr) -> u32
    ensures word { result ≡ words.encode_of i.now }
    ensures back { decode_of result ≡ Some i.now }
{
    word_of(i)
}

#[tactic(auto, unfolding(crate::specs::Encoding::encode_of))]
fn word_of(i: &Instr) -> u32
    ensures word { result ≡ words.encode_of i.now }
    ensures within { words.IsInstr i.now }
{
    match *i {
        Instr::Lui { rd, immediate } => u_word(immediate, rd, 0b0110111),
        Instr::Auipc { rd, immediate } => u_word(immediate, rd, 0b0010111),
        Instr::Jal { rd, offset } => j_word(offset, rd, 0b1101111),
        Instr::Jalr { rd, rs1, offset } => i_word(offset, rs1, 0b000, rd, 0b1100111),
        Instr::Branch {
            kind,
            rs1,
            rs2,
            offset,
        } => b_word(offset, rs2, rs1, branch_funct3(kind), 0b1100011),
        Instr::Load {
            kind,
            rd,
            rs1,
            offset,
        } => i_word(offset, rs1, load_funct3(kind), rd, 0b0000011),
        Instr::Store {
            kind,
            rs1,
            rs2,
            offset,
        } => s_word(offset, rs2, rs1, store_funct3(kind), 0b0100011),
        Instr::OpImm {
            kind,
            rd,
            rs1,
            immediate,
        } => i_word(immediate, rs1, op_imm_funct3(kind), rd, 0b0010011),
        Instr::ShiftImm {
            kind,
            rd,
            rs1,
            amount,
        } => shift_imm_word(kind, amount, rs1, rd),
        Instr::Op { kind, rd, rs1, rs2 } => op_word(kind, rs2, rs1, rd),
        Instr::Fence => 0x0ff0000f,
        Instr::Ecall => 0x00000073,
        Instr::Ebreak => 0x00100073,
    }
}

/// The word of these fields, with `rs2` and `rd` as numbers, since parts of immediates stand there
/// too.
fn r_word(funct7: u32, rs2: u32, rs1: Register, funct3: u32, rd: u32, opcode: u32) -> u32
    requires seven { funct7 < 128 }
    requires second { rs2 < 32 }
    requires three { funct3 < 8 }
    requires destination { rd < 32 }
    requires low { opcode < 128 }
    ensures word { result ≡ words.r_word funct7 rs2 rs1 funct3 rd opcode }
    ensures first { rs1 < 32 }
{
    let rs1 = u32::from(rs1.number());
    (funct7 << 25) + (rs2 << 20) + (rs1 << 15) + (funct3 << 12) + (rd << 7) + opcode
}

fn i_word(immediate: Immediate, rs1: Register, funct3: u32, rd: Register, opcode: u32) -> u32
    requires three { funct3 < 8 }
    requires low { opcode < 128 }
    ensures word { result ≡ words.i_word immediate rs1 funct3 rd opcode }
    ensures within { IsSigned 12 immediate }
    ensures first { rs1 < 32 }
    ensures destination { rd < 32 }
{
    let imm = immediate.word();
    let rd = u32::from(rd.number());
    r_word(bits(imm, 5, 7), bits(imm, 0, 5), rs1, funct3, rd, opcode)
}

fn s_word(immediate: Immediate, rs2: Register, rs1: Register, funct3: u32, opcode: u32) -> u32
    requires three { funct3 < 8 }
    requires low { opcode < 128 }
    ensures word { result ≡ words.s_word immediate rs2 rs1 funct3 opcode }
    ensures within { IsSigned 12 immediate }
    ensures first { rs1 < 32 }
    ensures second { rs2 < 32 }
{
    let imm = immediate.word();
    let rs2 = u32::from(rs2.number());
    r_word(bits(imm, 5, 7), rs2, rs1, funct3, bits(imm, 0, 5), opcode)
}

fn b_word(offset: BranchOffset, rs2: Register, rs1: Register, funct3: u32, opcode: u32) -> u32
    requires three { funct3 < 8 }
    requires low { opcode < 128 }
    ensures word { result ≡ words.b_word offset rs2 rs1 funct3 opcode }
    ensures within { IsOffset 13 offset }
    ensures first { rs1 < 32 }
    ensures second { rs2 < 32 }
{
    let imm = offset.word();
    let high = (bits(imm, 12, 1) << 6) + bits(imm, 5, 6);
    let low = (bits(imm, 1, 4) << 1) + bits(imm, 11, 1);
    r_word(high, u32::from(rs2.number()), rs1, funct3, low, opcode)
}

fn u_word(immediate: UpperImmediate, rd: Register, opcode: u32) -> u32
    requires low { opcode < 128 }
    ensures word { result ≡ words.u_word immediate rd opcode }
    ensures within { IsUpper immediate }
    ensures destination { rd < 32 }
{
    let rd = u32::from(rd.number());
    (bits(immediate.word(), 12, 20) << 12) + (rd << 7) + opcode
}

fn j_word(offset: JumpOffset, rd: Register, opcode: u32) -> u32
    requires low { opcode < 128 }
    ensures word { result ≡ words.j_word offset rd opcode }
    ensures within { IsOffset 21 offset }
    ensures destination { rd < 32 }
{
    let imm = offset.word();
    let high = (bits(imm, 20, 1) << 31) + (bits(imm, 1, 10) << 21);
    let middle = (bits(imm, 11, 1) << 20) + (bits(imm, 12, 8) << 12);
    let rd = u32::from(rd.number());
    high + middle + (rd << 7) + opcode
}

fn shift_imm_word(kind: ShiftImmKind, amount: ShiftAmount, rs1: Register, rd: Register) -> u32
    ensures word { result ≡ words.shift_imm_word kind amount rs1 rd }
    ensures within { amount < 32 }
    ensures first { rs1 < 32 }
    ensures destination { rd < 32 }
{
    let amount = u32::from(amount.bits());
    let rd = u32::from(rd.number());
    r_word(
        shift_imm_funct7(kind),
        amount,
        rs1,
        shift_imm_funct3(kind),
        rd,
        0b0010011,
    )
}

fn op_word(kind: OpKind, rs2: Register, rs1: Register, rd: Register) -> u32
    ensures word { result ≡ words.op_word kind rs2 rs1 rd }
    ensures second { rs2 < 32 }
    ensures first { rs1 < 32 }
    ensures destination { rd < 32 }
{
    let rs2 = u32::from(rs2.number());
    let rd = u32::from(rd.number());
    r_word(op_funct7(kind), rs2, rs1, op_funct3(kind), rd, 0b0110011)
}
