// From words to instructions.
#![tactic(auto, using(crate::proofs::ByOpcode::by_opcode))]

ghost use Rattle.std.specs.Prelude.{◌≡◌};
ghost use Rattle.qs_isa.specs.Fields as fields;
ghost use Rattle.qs_isa.specs.Table.{decode_of};

use crate::Instr;
use crate::fields::{
    b_immediate, funct3, funct7, i_immediate, j_immediate, opcode, rd, rs1, rs2, s_immediate,
    shift_amount, u_immediate,
};
use crate::kinds::{branch_kind, load_kind, op_imm_kind, op_kind, shift_imm_kind, store_kind};

/// The instruction that a word is (chapter 24); None exactly where it is none.
pub fn decode(word: u32) -> Option<Instr>
    ensures { result ≡ decode_of word }
{
    match opcode(word) {
        0b0110111 => Some(Instr::Lui {
            rd: rd(word),
            immediate: u_immediate(word),
        }),
        0b0010111 => Some(Instr::Auipc {
            rd: rd(word),
            immediate: u_immediate(word),
        }),
        0b1101111 => Some(Instr::Jal {
            rd: rd(word),
            offset: j_immediate(word),
        }),
        0b1100111 => decode_jalr(word),
        0b1100011 => decode_branch(word),
        0b0000011 => decode_load(word),
        0b0100011 => decode_store(word),
        0b0010011 => decode_op_imm(word),
        0b0110011 => decode_op(word),
        0b0001111 => decode_fence(word),
        0b1110011 => decode_system(word),
        _ => None,
    }
}

fn decode_jalr(word: u32) -> Option<Instr>
    requires { fields.opcode word ≡ 0b1100111 }
    ensures { result ≡ decode_of word }
{
    match funct3(word) {
        0b000 => Some(Instr::Jalr {
            rd: rd(word),
            rs1: rs1(word),
            offset: i_immediate(word),
        }),
        _ => None,
    }
}

fn decode_branch(word: u32) -> Option<Instr>
    requires { fields.opcode word ≡ 0b1100011 }
    ensures { result ≡ decode_of word }
{
    let kind = branch_kind(funct3(word))?;
    Some(Instr::Branch {
        kind,
        rs1: rs1(word),
        rs2: rs2(word),
        offset: b_immediate(word),
    })
}

fn decode_load(word: u32) -> Option<Instr>
    requires { fields.opcode word ≡ 0b0000011 }
    ensures { result ≡ decode_of word }
{
    let kind = load_kind(funct3(word))?;
    Some(Instr::Load {
        kind,
        rd: rd(word),
        rs1: rs1(word),
        offset: i_immediate(word),
    })
}

fn decode_store(word: u32) -> Option<Instr>
    requires { fields.opcode word ≡ 0b0100011 }
    ensures { result ≡ decode_of word }
{
    let kind = store_kind(funct3(word))?;
    Some(Instr::Store {
        kind,
        rs1: rs1(word),
        rs2: rs2(word),
        offset: s_immediate(word),
    })
}

fn decode_op_imm(word: u32) -> Option<Instr>
    requires { fields.opcode word ≡ 0b0010011 }
    ensures { result ≡ decode_of word }
{
    match op_imm_kind(funct3(word)) {
        Some(kind) => Some(Instr::OpImm {
            kind,
            rd: rd(word),
            rs1: rs1(word),
            immediate: i_immediate(word),
        }),
        None => {
            let kind = shift_imm_kind(funct7(word), funct3(word))?;
            Some(Instr::ShiftImm {
                kind,
                rd: rd(word),
                rs1: rs1(word),
                amount: shift_amount(word),
            })
        }
    }
}

fn decode_op(word: u32) -> Option<Instr>
    requires { fields.opcode word ≡ 0b0110011 }
    ensures { result ≡ decode_of word }
{
    let kind = op_kind(funct7(word), funct3(word))?;
    Some(Instr::Op {
        kind,
        rd: rd(word),
        rs1: rs1(word),
        rs2: rs2(word),
    })
}

fn decode_fence(word: u32) -> Option<Instr>
    requires { fields.opcode word ≡ 0b0001111 }
    ensures { result ≡ decode_of word }
{
    match funct3(word) {
        0b000 => Some(Instr::Fence),
        _ => None,
    }
}

fn decode_system(word: u32) -> Option<Instr>
    requires { fields.opcode word ≡ 0b1110011 }
    ensures { result ≡ decode_of word }
{
    match word {
        0x00000073 => Some(Instr::Ecall),
        0x00100073 => Some(Instr::Ebreak),
        _ => None,
    }
}
