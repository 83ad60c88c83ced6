// The machine, and what each kind of instruction does to it.
ghost use Rattle.std.specs.Prelude.{◌≤◌, length};
ghost use Rattle.qs_image.specs.Limits.{most_code_words};

use crate::answers::{Cause, End, StepResult};
use crate::memory::{Memory, load_width, store_width};
use crate::operations::{is_taken, op_imm_result, op_result, shift_result};
use crate::regions::STACK_TOP;
use crate::registers::Registers;
use qs_base::add32;
use qs_isa::{EXIT_CALL, Instr, LoadKind, PUT_BYTE_CALL, Register, StoreKind, TAKE_BYTE_CALL};

/// A machine that was loaded. It keeps how many bytes of the input it has taken, and how it ended.
#[derive(Drop)]
pub struct Machine {
    pub(crate) instructions: Vec<Option<Instr>>,
    pub(crate) memory: Memory,
    pub(crate) registers: Registers,
    pub(crate) pc: u32,
    pub(crate) taken: usize,
    pub(crate) ended: Option<End>,
    ghost code_fits: { length instructions.items ≤ most_code_words },
}

impl Machine {
    ghost use Rattle.std.specs.Prelude.{◌≡◌, ◌+◌, ◌<◌, ◌≤◌, ◌^◌, length};
    ghost use Rattle.qs_machine.specs.Actions as action;
    ghost use Rattle.qs_machine.specs.Standing.{taken_of, end_of, Does, DoesForAnyInput, PutsAnswer};
    ghost use Rattle.qs_machine.specs.Standing.{StaysLoaded};

    fn trap(&self, cause: Cause) -> StepResult
        ensures { result ≡ StepResult.Trapped cause self.now.pc }
    {
        StepResult::Trapped(cause, self.pc)
    }

    fn next_pc(&self) -> u32
        requires { self.now.pc < 2 ^ 31 }
        ensures { result ≡ self.now.pc + 4 }
    {
        self.pc + 4
    }

    // Writes a register and goes on at an address. The stack pointer may not leave the stack.
    fn write_and_go(&mut self, rd: Register, value: u32, pc: u32) -> StepResult
        ensures does { DoesForAnyInput self.old self.new (action.write_and_go rd value pc) result }
        ensures taken { taken_of self.new ≡ taken_of self.old }
    {
        if rd == Register::SP && (value < self.memory.stack_base() || STACK_TOP < value) {
            return self.trap(Cause::Overflow);
        }
        self.registers.write(rd, value);
        self.pc = pc;
        StepResult::Going
    }

    fn write(&mut self, rd: Register, value: u32) -> StepResult
        requires { self.old.pc < 2 ^ 31 }
        ensures does { DoesForAnyInput self.old self.new (action.write rd value) result }
        ensures taken { taken_of self.new ≡ taken_of self.old }
    {
        let next = self.next_pc();
        self.write_and_go(rd, value, next)
    }

    fn go_to(&mut self, pc: u32) -> StepResult
        ensures does { DoesForAnyInput self.old self.new (action.go_to pc) result }
        ensures taken { taken_of self.new ≡ taken_of self.old }
    {
        self.pc = pc;
        StepResult::Going
    }

    fn jump(&mut self, rd: Register, target: u32) -> StepResult
        requires { self.old.pc < 2 ^ 31 }
        ensures does { DoesForAnyInput self.old self.new (action.jump rd target) result }
        ensures taken { taken_of self.new ≡ taken_of self.old }
    {
        if target % 4 != 0 {
            return self.trap(Cause::JumpMisaligned);
        }
        let next = self.next_pc();
        self.write_and_go(rd, next, target)
    }

    fn branch(&mut self, taken: bool, target: u32) -> StepResult
        requires { self.old.pc < 2 ^ 31 }
        ensures does { DoesForAnyInput self.old self.new (action.branch taken target) result }
        ensures taken { taken_of self.new ≡ taken_of self.old }
    {
        if !taken {
            let next = self.next_pc();
            return self.go_to(next);
        }
        if target % 4 == 0 {
            self.go_to(target)
        } else {
            self.trap(Cause::JumpMisaligned)
        }
    }

    fn load(&mut self, kind: LoadKind, rd: Register, address: u32) -> StepResult
        requires { self.old.pc < 2 ^ 31 }
        ensures does { DoesForAnyInput self.old self.new (action.load kind rd address) result }
        ensures taken { taken_of self.new ≡ taken_of self.old }
    {
        if address % load_width(kind) != 0 {
            return self.trap(Cause::LoadMisaligned);
        }
        match self.memory.load(kind, address) {
            Some(word) => self.write(rd, word),
            None => self.trap(Cause::LoadOutside),
        }
    }

    fn store(&mut self, kind: StoreKind, address: u32, value: u32) -> StepResult
        requires { self.old.pc < 2 ^ 31 }
        ensures does { DoesForAnyInput self.old self.new (action.store kind address value) result }
        ensures taken { taken_of self.new ≡ taken_of self.old }
    {
        if address % store_width(kind) != 0 {
            return self.trap(Cause::StoreMisaligned);
        }
        if !self.memory.store(kind, address, value) {
            return self.trap(Cause::StoreOutside);
        }
        let next = self.next_pc();
        self.go_to(next)
    }

    // Puts a value into a0 and goes on.
    fn answer(&mut self, value: u32)
        requires { self.old.pc < 2 ^ 31 }
        ensures answers { PutsAnswer self.old self.new value }
        ensures loaded { StaysLoaded self.old self.new }
        ensures taken { taken_of self.new ≡ taken_of self.old }
        ensures ended { end_of self.new ≡ end_of self.old }
    {
        self.registers.write(Register::A0, value);
        self.pc = self.next_pc();
    }

    fn take_byte(&mut self, input: &[u8]) -> StepResult
        requires low { self.old.pc < 2 ^ 31 }
        requires room { taken_of self.old ≤ length input.now }
        ensures does { Does self.old self.new input.now action.take_byte result }
        ensures more { taken_of self.old ≤ taken_of self.new }
        ensures within { taken_of self.new ≤ length input.now }
    {
        if self.taken == input.len() {
            self.answer(u32::MAX);
        } else {
            self.answer(u32::from(input[self.taken]));
            self.taken += 1;
        }
        StepResult::Going
    }

    fn environment_call(&mut self, call: u32, input: &[u8]) -> StepResult
        requires low { self.old.pc < 2 ^ 31 }
        requires room { taken_of self.old ≤ length input.now }
        ensures does { Does self.old self.new input.now (action.environment_call call) result }
        ensures more { taken_of self.old ≤ taken_of self.new }
        ensures within { taken_of self.new ≤ length input.now }
    {
        let byte = (self.registers.read(Register::A0) % 256) as u8;
        match call {
            EXIT_CALL => StepResult::Exited(byte),
            PUT_BYTE_CALL => {
                self.answer(u32::from(byte));
                StepResult::Put(byte)
            }
            TAKE_BYTE_CALL => self.take_byte(input),
            _ => self.trap(Cause::UnknownCall),
        }
    }

    pub(crate) fn act(&mut self, instruction: Instr, input: &[u8]) -> StepResult
        requires low { self.old.pc < 2 ^ 31 }
        requires room { taken_of self.old ≤ length input.now }
        ensures does { Does self.old self.new input.now (action.act instruction) result }
        ensures more { taken_of self.old ≤ taken_of self.new }
        ensures within { taken_of self.new ≤ length input.now }
    {
        match instruction {
            Instr::Lui { rd, immediate } => self.write(rd, immediate.word()),
            Instr::Auipc { rd, immediate } => self.write(rd, add32(self.pc, immediate.word())),
            Instr::Jal { rd, offset } => self.jump(rd, add32(self.pc, offset.word())),
            Instr::Jalr { rd, rs1, offset } => {
                let target = add32(self.registers.read(rs1), offset.word()) / 2 * 2;
                self.jump(rd, target)
            }
            Instr::Branch {
                kind,
                rs1,
                rs2,
                offset,
            } => {
                let taken = is_taken(kind, self.registers.read(rs1), self.registers.read(rs2));
                self.branch(taken, add32(self.pc, offset.word()))
            }
            Instr::Load {
                kind,
                rd,
                rs1,
                offset,
            } => {
                let address = add32(self.registers.read(rs1), offset.word());
                self.load(kind, rd, address)
            }
            Instr::Store {
                kind,
                rs1,
                rs2,
                offset,
            } => {
                let address = add32(self.registers.read(rs1), offset.word());
                let value = self.registers.read(rs2);
                self.store(kind, address, value)
            }
            Instr::OpImm {
                kind,
                rd,
                rs1,
                immediate,
            } => {
                let value = op_imm_result(kind, self.registers.read(rs1), immediate.word());
                self.write(rd, value)
            }
            Instr::ShiftImm {
                kind,
                rd,
                rs1,
                amount,
            } => {
                let value = shift_result(kind, self.registers.read(rs1), u32::from(amount.bits()));
                self.write(rd, value)
            }
            Instr::Op { kind, rd, rs1, rs2 } => {
                let value = op_result(kind, self.registers.read(rs1), self.registers.read(rs2));
                self.write(rd, value)
            }
            Instr::Fence => {
                let next = self.next_pc();
                self.go_to(next)
            }
            Instr::Ecall => {
                let call = self.registers.read(Register::A7);
                self.environment_call(call, input)
            }
            Instr::Ebreak => self.trap(Cause::Breakpoint),
        }
    }
}
