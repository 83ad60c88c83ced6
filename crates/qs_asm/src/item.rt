// Items.

use qs_isa::{BranchKind, Instr, Register};

/// A piece of code before it has an address. Labels are numbers.
#[derive(Clone, Copy)]
pub enum Item {
    /// an instruction
    Plain(Instr),
    /// what follows has this label
    Label(u32),
    /// goes to the label, with the address behind in the register
    Jump(Register, u32),
    /// goes to the label where the registers compare so
    Branch(BranchKind, Register, Register, u32),
}
