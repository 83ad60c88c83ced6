// The fields of an instruction's word (sections 2.2 and 2.3).
ghost use Rattle.std.specs.Prelude.{◌≡◌, ◌<◌, ◌^◌};
ghost use Rattle.qs_base.specs.Words as words;
ghost use Rattle.qs_isa.specs.Fields as fields;

use crate::{BranchOffset, Immediate, JumpOffset, Register, ShiftAmount, UpperImmediate};

/// Bits `low` to `low + count - 1` of the word.
pub fn bits(word: u32, low: u32, count: u32) -> u32
    requires within { low < 32 }
    requires narrow { count < 32 }
    ensures value { result ≡ fields.bits word low count }
    ensures range { result < 2 ^ count }
{
    (word >> low) % (1 << count)
}

/// Bits 6..0: the sort of the instruction, 0 to 127.
pub fn opcode(word: u32) -> u32
    ensures { result ≡ fields.opcode word }
{
    bits(word, 0, 7)
}

/// Bits 14..12: mostly the kind within an opcode, 0 to 7.
pub fn funct3(word: u32) -> u32
    ensures { result ≡ fields.funct3 word }
{
    bits(word, 12, 3)
}

/// Bits 31..25: what tells apart kinds with one funct3, 0 to 127.
pub fn funct7(word: u32) -> u32
    ensures { result ≡ fields.funct7 word }
{
    bits(word, 25, 7)
}

/// Bits 11..7: the register that is written.
pub fn rd(word: u32) -> Register
    ensures { result ≡ fields.rd word }
{
    Register::new(bits(word, 7, 5) as u8)
}

/// Bits 19..15: the first register that is read.
pub fn rs1(word: u32) -> Register
    ensures { result ≡ fields.rs1 word }
{
    Register::new(bits(word, 15, 5) as u8)
}

/// Bits 24..20: the second register that is read.
pub fn rs2(word: u32) -> Register
    ensures { result ≡ fields.rs2 word }
{
    Register::new(bits(word, 20, 5) as u8)
}

/// The amount of a shift stands where rs2 does.
pub fn shift_amount(word: u32) -> ShiftAmount
    ensures { result ≡ fields.rs2 word }
{
    ShiftAmount::new(bits(word, 20, 5) as u8)
}

/// The word of a number of `count` bits whose highest bit is its sign.
fn sign_extend(count: u32, number: u32) -> u32
    requires positive { 0 < count }
    requires narrow { count < 32 }
    requires range { number < 2 ^ count }
    ensures { result ≡ words.sign_extend count number }
{
    if number < 1 << (count - 1) {
        number
    } else {
        u32::MAX - ((1 << count) - 1 - number)
    }
}

/// Bits 31..20, signed.
pub fn i_immediate(word: u32) -> Immediate
    ensures { result ≡ fields.i_immediate word }
{
    Immediate::new(sign_extend(12, bits(word, 20, 12)))
}

/// Bits 31..25, then 11..7, signed.
pub fn s_immediate(word: u32) -> Immediate
    ensures { result ≡ fields.s_immediate word }
{
    let high = bits(word, 25, 7) << 5;
    Immediate::new(sign_extend(12, high + bits(word, 7, 5)))
}

/// Bit 12 is bit 31, bit 11 is bit 7, 10..5 are 30..25, 4..1 are 11..8, signed.
pub fn b_immediate(word: u32) -> BranchOffset
    ensures { result ≡ fields.b_immediate word }
{
    let high = (bits(word, 31, 1) << 12) + (bits(word, 7, 1) << 11);
    let low = (bits(word, 25, 6) << 5) + (bits(word, 8, 4) << 1);
    BranchOffset::new(sign_extend(13, high + low))
}

/// Bits 31..12, the low twelve bits 0.
pub fn u_immediate(word: u32) -> UpperImmediate
    ensures { result ≡ fields.u_immediate word }
{
    UpperImmediate::new(bits(word, 12, 20) << 12)
}

/// Bit 20 is bit 31, 19..12 are 19..12, bit 11 is bit 20, 10..1 are 30..21, signed.
pub fn j_immediate(word: u32) -> JumpOffset
    ensures { result ≡ fields.j_immediate word }
{
    let high = (bits(word, 31, 1) << 20) + (bits(word, 12, 8) << 12);
    let low = (bits(word, 20, 1) << 11) + (bits(word, 21, 10) << 1);
    JumpOffset::new(sign_extend(21, high + low))
}
