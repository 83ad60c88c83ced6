// The kinds within an opcode, and their funct3 and funct7.
ghost use Rattle.std.specs.Prelude.{◌≡◌, ◌<◌};
ghost use Rattle.qs_isa.specs.Kinds.{branch_kind_of, load_kind_of, store_kind_of, op_imm_kind_of};
ghost use Rattle.qs_isa.specs.Kinds.{shift_imm_kind_of, plain_kind_of, marked_kind_of};
ghost use Rattle.qs_isa.specs.Kinds.{multiply_kind_of, op_kind_of};
ghost use Rattle.qs_isa.specs.Encoding.{branch_funct3, load_funct3, store_funct3, op_imm_funct3};
ghost use Rattle.qs_isa.specs.Encoding.{shift_imm_funct3, shift_imm_funct7, op_funct3, op_funct7};

use crate::{BranchKind, LoadKind, OpImmKind, OpKind, ShiftImmKind, StoreKind};

/// The branch with this funct3 (section 2.5): none has 2 or 3, nor more than 7.
pub fn branch_kind(funct3: u32) -> Option<BranchKind>
    ensures { result ≡ branch_kind_of funct3 }
{
    match funct3 {
        0b000 => Some(BranchKind::Beq),
        0b001 => Some(BranchKind::Bne),
        0b100 => Some(BranchKind::Blt),
        0b101 => Some(BranchKind::Bge),
        0b110 => Some(BranchKind::Bltu),
        0b111 => Some(BranchKind::Bgeu),
        _ => None,
    }
}

/// The load with this funct3 (section 2.6): none has 3, nor more than 5.
pub fn load_kind(funct3: u32) -> Option<LoadKind>
    ensures { result ≡ load_kind_of funct3 }
{
    match funct3 {
        0b000 => Some(LoadKind::Lb),
        0b001 => Some(LoadKind::Lh),
        0b010 => Some(LoadKind::Lw),
        0b100 => Some(LoadKind::Lbu),
        0b101 => Some(LoadKind::Lhu),
        _ => None,
    }
}

/// The store with this funct3 (section 2.6): none has more than 2.
pub fn store_kind(funct3: u32) -> Option<StoreKind>
    ensures { result ≡ store_kind_of funct3 }
{
    match funct3 {
        0b000 => Some(StoreKind::Sb),
        0b001 => Some(StoreKind::Sh),
        0b010 => Some(StoreKind::Sw),
        _ => None,
    }
}

/// The operation on a register and an immediate with this funct3 (section 2.4): none has 1 or 5,
/// which are those of shifts, nor more than 7.
pub fn op_imm_kind(funct3: u32) -> Option<OpImmKind>
    ensures { result ≡ op_imm_kind_of funct3 }
{
    match funct3 {
        0b000 => Some(OpImmKind::Addi),
        0b010 => Some(OpImmKind::Slti),
        0b011 => Some(OpImmKind::Sltiu),
        0b100 => Some(OpImmKind::Xori),
        0b110 => Some(OpImmKind::Ori),
        0b111 => Some(OpImmKind::Andi),
        _ => None,
    }
}

/// The shift by a fixed amount with this funct7 and funct3 (section 2.4), if there is one.
pub fn shift_imm_kind(funct7: u32, funct3: u32) -> Option<ShiftImmKind>
    ensures { result ≡ shift_imm_kind_of funct7 funct3 }
{
    match (funct7, funct3) {
        (0b0000000, 0b001) => Some(ShiftImmKind::Slli),
        (0b0000000, 0b101) => Some(ShiftImmKind::Srli),
        (0b0100000, 0b101) => Some(ShiftImmKind::Srai),
        _ => None,
    }
}

fn plain_kind(funct3: u32) -> Option<OpKind>
    ensures { result ≡ plain_kind_of funct3 }
{
    match funct3 {
        0b000 => Some(OpKind::Add),
        0b001 => Some(OpKind::Sll),
        0b010 => Some(OpKind::Slt),
        0b011 => Some(OpKind::Sltu),
        0b100 => Some(OpKind::Xor),
        0b101 => Some(OpKind::Srl),
        0b110 => Some(OpKind::Or),
        0b111 => Some(OpKind::And),
        _ => None,
    }
}

fn marked_kind(funct3: u32) -> Option<OpKind>
    ensures { result ≡ marked_kind_of funct3 }
{
    match funct3 {
        0b000 => Some(OpKind::Sub),
        0b101 => Some(OpKind::Sra),
        _ => None,
    }
}

fn multiply_kind(funct3: u32) -> Option<OpKind>
    ensures { result ≡ multiply_kind_of funct3 }
{
    match funct3 {
        0b000 => Some(OpKind::Mul),
        0b001 => Some(OpKind::Mulh),
        0b010 => Some(OpKind::Mulhsu),
        0b011 => Some(OpKind::Mulhu),
        0b100 => Some(OpKind::Div),
        0b101 => Some(OpKind::Divu),
        0b110 => Some(OpKind::Rem),
        0b111 => Some(OpKind::Remu),
        _ => None,
    }
}

/// The operation on two registers with this funct7 and funct3 (sections 2.4, 7.1 and 7.2), if there
/// is one.
pub fn op_kind(funct7: u32, funct3: u32) -> Option<OpKind>
    ensures { result ≡ op_kind_of funct7 funct3 }
{
    match funct7 {
        0b0000000 => plain_kind(funct3),
        0b0100000 => marked_kind(funct3),
        0b0000001 => multiply_kind(funct3),
        _ => None,
    }
}

/// The funct3 of a branch (section 2.5).
pub fn branch_funct3(kind: BranchKind) -> u32
    ensures value { result ≡ branch_funct3 kind }
    ensures range { result < 8 }
{
    match kind {
        BranchKind::Beq => 0b000,
        BranchKind::Bne => 0b001,
        BranchKind::Blt => 0b100,
        BranchKind::Bge => 0b101,
        BranchKind::Bltu => 0b110,
        BranchKind::Bgeu => 0b111,
    }
}

/// The funct3 of a load (section 2.6).
pub fn load_funct3(kind: LoadKind) -> u32
    ensures value { result ≡ load_funct3 kind }
    ensures range { result < 8 }
{
    match kind {
        LoadKind::Lb => 0b000,
        LoadKind::Lh => 0b001,
        LoadKind::Lw => 0b010,
        LoadKind::Lbu => 0b100,
        LoadKind::Lhu => 0b101,
    }
}

/// The funct3 of a store (section 2.6).
pub fn store_funct3(kind: StoreKind) -> u32
    ensures value { result ≡ store_funct3 kind }
    ensures range { result < 8 }
{
    match kind {
        StoreKind::Sb => 0b000,
        StoreKind::Sh => 0b001,
        StoreKind::Sw => 0b010,
    }
}

/// The funct3 of an operation on a register and an immediate (section 2.4).
pub fn op_imm_funct3(kind: OpImmKind) -> u32
    ensures value { result ≡ op_imm_funct3 kind }
    ensures range { result < 8 }
{
    match kind {
        OpImmKind::Addi => 0b000,
        OpImmKind::Slti => 0b010,
        OpImmKind::Sltiu => 0b011,
        OpImmKind::Xori => 0b100,
        OpImmKind::Ori => 0b110,
        OpImmKind::Andi => 0b111,
    }
}

/// The funct3 of a shift by a fixed amount (section 2.4): both shifts to the right have 5.
pub fn shift_imm_funct3(kind: ShiftImmKind) -> u32
    ensures value { result ≡ shift_imm_funct3 kind }
    ensures range { result < 8 }
{
    match kind {
        ShiftImmKind::Slli => 0b001,
        ShiftImmKind::Srli | ShiftImmKind::Srai => 0b101,
    }
}

/// The funct7 of a shift by a fixed amount (section 2.4): that which copies the sign has 32.
pub fn shift_imm_funct7(kind: ShiftImmKind) -> u32
    ensures value { result ≡ shift_imm_funct7 kind }
    ensures range { result < 128 }
{
    match kind {
        ShiftImmKind::Slli | ShiftImmKind::Srli => 0b0000000,
        ShiftImmKind::Srai => 0b0100000,
    }
}

/// The funct3 of an operation on two registers (sections 2.4, 7.1 and 7.2).
pub fn op_funct3(kind: OpKind) -> u32
    ensures value { result ≡ op_funct3 kind }
    ensures range { result < 8 }
{
    match kind {
        OpKind::Add | OpKind::Sub | OpKind::Mul => 0b000,
        OpKind::Sll | OpKind::Mulh => 0b001,
        OpKind::Slt | OpKind::Mulhsu => 0b010,
        OpKind::Sltu | OpKind::Mulhu => 0b011,
        OpKind::Xor | OpKind::Div => 0b100,
        OpKind::Srl | OpKind::Sra | OpKind::Divu => 0b101,
        OpKind::Or | OpKind::Rem => 0b110,
        OpKind::And | OpKind::Remu => 0b111,
    }
}

/// The funct7 of an operation on two registers: 1 of those that multiply or divide (sections 7.1
/// and 7.2), 32 of SUB and SRA, 0 of the others (section 2.4).
pub fn op_funct7(kind: OpKind) -> u32
    ensures value { result ≡ op_funct7 kind }
    ensures range { result < 128 }
{
    match kind {
        OpKind::Add
        | OpKind::Sll
        | OpKind::Slt
        | OpKind::Sltu
        | OpKind::Xor
        | OpKind::Srl
        | OpKind::Or
        | OpKind::And => 0b0000000,
        OpKind::Sub | OpKind::Sra => 0b0100000,
        OpKind::Mul
        | OpKind::Mulh
        | OpKind::Mulhsu
        | OpKind::Mulhu
        | OpKind::Div
        | OpKind::Divu
        | OpKind::Rem
        | OpKind::Remu => 0b0000001,
    }
}
