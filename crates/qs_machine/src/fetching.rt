// The instruction at the pc.
ghost use Rattle.std.specs.Prelude.{◌≤◌, ◌<◌, ◌^◌, IsSome, length};
ghost use Rattle.qs_image.specs.Limits.{most_code_words};
ghost use Rattle.qs_machine.specs.Step.{Fetches};

use crate::regions::place_in;
use qs_isa::{CODE_START, Instr};

/// What stands at the pc: None where it is the address of no word of the code, and Some of None
/// where the word there is no instruction.
pub fn fetch(instructions: &[Option<Instr>], pc: u32) -> Option<Option<Instr>>
    requires { length instructions.now ≤ most_code_words }
    ensures fetched { Fetches instructions.now pc result }
    ensures low { IsSome result → pc < 2 ^ 31 }
{
    let at = place_in(CODE_START, 4 * instructions.len(), pc, 4)?;
    Some(instructions[at / 4])
}
