// Where arguments are passed.
ghost use Rattle.std.specs.Prelude.{◌≡◌, ◌+◌, ◌<◌, ◌≤◌, nat_lt};
ghost use Rattle.qs_base.specs.Parameters.{most_register_arguments, stack_arguments};
ghost use Rattle.qs_isa.specs.Registers.{a0};
ghost use Rattle.qs_frames.specs.Layout.{argument_at};
ghost use Rattle.qs_emit_selection.specs.Limits.{most_arguments};

use qs_base::MOST_REGISTER_ARGUMENTS;
use qs_isa::Register;

const IN_REGISTERS: usize = MOST_REGISTER_ARGUMENTS as usize;

/// Whether the argument with this number is passed in a register.
pub fn has_register(i: usize) -> bool
    ensures { result ≡ nat_lt i most_register_arguments }
{
    i < IN_REGISTERS
}

/// The register in which it is passed.
pub fn argument_register(i: usize) -> Register
    requires { i < most_register_arguments }
    ensures { result ≡ a0 + i }
{
    Register::new(Register::A0.number() + i as u8)
}

/// Where an argument that is passed on the stack lies behind x2, as it is at the call.
pub fn argument_offset(i: usize) -> u32
    requires past { most_register_arguments ≤ i }
    requires few { i < most_arguments }
    ensures is { result ≡ argument_at (stack_arguments i) }
    ensures near { result < 32 }
{
    4 * (i - IN_REGISTERS) as u32
}
