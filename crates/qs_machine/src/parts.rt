// Parts of the machine's state, told and set. None of these calls takes memory.
ghost use Rattle.qs_machine.specs.State.{set_register, with_value};

use crate::machine::Machine;
use qs_isa::{Register, StoreKind};

impl Machine {
    ghost use Rattle.std.specs.Prelude.{◌≡◌, ◌<◌, ◌≤◌, IsTrue};
    ghost use Rattle.qs_machine.specs.Standing.{taken_of};
    ghost use Rattle.qs_machine.specs.Parts.{pc_of, registers_in, memory_in, is_in_stack};
    ghost use Rattle.qs_machine.specs.Parts.{Changes, HasTaken};

    /// The address of the next instruction.
    pub fn pc(&self) -> u32
        ensures { result ≡ pc_of self.now }
    {
        self.pc
    }

    /// The value of one of x1 to x31.
    pub fn register(&self, r: u32) -> u32
        requires some { 1 ≤ r }
        requires few { r < 32 }
        ensures { result ≡ registers_in self.now r }
    {
        self.registers.read(Register::new(r as u8))
    }

    /// The byte of the stack at an address.
    pub fn stack_byte(&self, at: u32) -> u8
        requires { IsTrue (is_in_stack self.now at) }
        ensures { result ≡ memory_in self.now at }
    {
        self.memory.stack.read(at, 1)[0]
    }

    /// How many bytes of the input were taken.
    pub fn taken(&self) -> usize
        ensures { result ≡ taken_of self.now }
    {
        self.taken
    }

    /// Sets the address of the next instruction.
    pub fn set_pc(&mut self, pc: u32)
        ensures { Changes self.old self.new (λ s. record s { pc = pc }) }
    {
        self.pc = pc;
    }

    /// Sets one of x1 to x31.
    pub fn set_register(&mut self, r: u32, value: u32)
        requires some { 1 ≤ r }
        requires few { r < 32 }
        ensures { Changes self.old self.new (λ s. set_register s r value) }
    {
        self.registers.write(Register::new(r as u8), value);
    }

    /// Sets the byte of the stack at an address.
    pub fn set_stack_byte(&mut self, at: u32, value: u8)
        requires { IsTrue (is_in_stack self.old at) }
        ensures { Changes self.old self.new (λ s. record s { memory = with_value s.memory at value }) }
    {
        self.memory.store(StoreKind::Sb, at, u32::from(value));
    }

    /// Sets how many bytes of the input were taken.
    pub fn set_taken(&mut self, count: usize)
        ensures { HasTaken self.old self.new count }
    {
        self.taken = count;
    }
}
