// Items whose branches have a length.

use qs_isa::{BranchKind, Instr, Register};

/// An item of which it is known how many words it takes.
#[derive(Clone, Copy)]
pub enum SizedItem {
    /// an instruction
    Plain(Instr),
    /// what follows has this label
    Label(u32),
    /// goes to the label, with the address behind in the register
    Jump(Register, u32),
    /// the branch itself: one word
    Short(BranchKind, Register, Register, u32),
    /// the inverted branch over a jump: two words
    Long(BranchKind, Register, Register, u32),
}
