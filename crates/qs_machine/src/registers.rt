// The registers' words.
ghost use Rattle.std.specs.Prelude.{◌≡◌, ◌≤◌, ◌==◌, length, slice_index, if◌then◌else◌};
ghost use Rattle.qs_isa.specs.Registers.{x0};
ghost use Rattle.qs_base.specs.Parameters.{most_main_parameters};
ghost use Rattle.qs_machine.specs.Run.{start_registers};

use crate::regions::STACK_TOP;
use qs_isa::Register;

/// The words of x0 to x31.
#[derive(Clone, Copy)]
pub struct Registers {
    pub words: [u32; 32],
    ghost x0_is_0: { slice_index words x0 ≡ 0 },
}

// At the start a0 to a7 hold the arguments and x2 the top of the stack.
fn start_words(args: &[u32]) -> [u32; 32]
    requires { length args.now ≤ most_main_parameters }
    ensures { (λ n. slice_index result n) ≡ start_registers args.now }
{
    let mut words = [0; 32];
    words[Register::SP.number() as usize] = STACK_TOP;
    let first = Register::A0.number() as usize;
    words[first..first + args.len()].copy_from_slice(args);
    words
}

impl Registers {
    ghost use Rattle.qs_machine.specs.Hart.{registers_of, written};

    /// The registers at the start, with these arguments.
    pub fn at_start(args: &[u32]) -> Registers
        requires { length args.now ≤ most_main_parameters }
        ensures { registers_of result ≡ start_registers args.now }
    {
        let words = start_words(args);
        Registers { words }
    }

    /// The value of a register; x0 reads 0.
    pub fn read(&self, register: Register) -> u32
        ensures { result ≡ (if register == x0 then 0 else registers_of self.now register) }
    {
        self.words[register.number() as usize]
    }

    /// Writes a register; what is written to x0 is dropped.
    pub fn write(&mut self, register: Register, value: u32)
        ensures { registers_of self.new ≡ written (registers_of self.old) register value }
    {
        if register != Register::ZERO {
            self.words[register.number() as usize] = value;
        }
    }
}
