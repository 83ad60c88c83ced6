//! The instructions of RV32I 2.1 and of the M extension 2.0, and their words
//! (RISC-V Unprivileged ISA 20191213, chapters 2, 7 and 24); where code and data
//! begin; the calls of the environment.
#![tactic(auto)]

mod addresses;
mod decoding;
mod encoding;
mod environment_calls;
mod fields;
mod immediate;
mod instruction;
mod kinds;
mod register;

pub use addresses::{CODE_START, DATA_START};
pub use decoding::decode;
pub use encoding::encode;
pub use environment_calls::{EXIT_CALL, PUT_BYTE_CALL, TAKE_BYTE_CALL};
pub use immediate::{BranchOffset, Immediate, JumpOffset, ShiftAmount, UpperImmediate};
pub use instruction::{BranchKind, Instr, LoadKind, OpImmKind, OpKind, ShiftImmKind, StoreKind};
pub use register::Register;
