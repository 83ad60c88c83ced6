// Contexts on the stack of a machine: pc, then x1 to x31, in 128 bytes.
ghost use Rattle.std.specs.Prelude.{◌≡◌, ℕ, ◌-◌, ◌<◌, ◌≤◌};
ghost use Rattle.qs_machine.specs.Parts.{memory_in, registers_in, Changes};
ghost use Rattle.qs_tasks_run.specs.Contexts.{context_bytes, context_word, byte_of_word, word_at};
ghost use Rattle.qs_tasks_machine.specs.Harts.{context_in, stack_pointer_in, HasStackFrom};
ghost use Rattle.qs_tasks_machine.specs.Harts.{storing, entering, taking_back};

use qs_machine::Machine;

/// How many bytes a context has.
pub const CONTEXT_BYTES: u32 = 128;

/// The number of x2.
pub const STACK_POINTER: u32 = 2;

const RETURN_ADDRESS: u32 = 1;

fn context_word(machine: &Machine, number: u32) -> u32
    requires { number < 32 }
    ensures { result ≡ context_word (context_in machine.now) number }
{
    if number == 0 {
        machine.pc()
    } else {
        machine.register(number)
    }
}

// Byte `number` of a word, the lowest first.
#[tactic(auto, unfolding(qs_tasks_run::specs::Contexts::byte_of_word))]
fn byte_of_word(word: u32, number: u32) -> u8
    requires { number < 4 }
    ensures { result ≡ byte_of_word word number }
{
    match number {
        0 => (word % 256) as u8,
        1 => (word / 256 % 256) as u8,
        2 => (word / 65536 % 256) as u8,
        _ => (word / 16777216 % 256) as u8,
    }
}

// Stores pc and x1 to x31 from an address on.
fn store(machine: &mut Machine, from: u32)
    requires { HasStackFrom machine.old from context_bytes }
    ensures { Changes machine.old machine.new (storing from) }
{
    for i in 0..CONTEXT_BYTES {
        let word = context_word(machine, i / 4);
        machine.set_stack_byte(from + i, byte_of_word(word, i % 4));
    }
}

/// The word of the stack at an address.
#[tactic(auto, unfolding(qs_tasks_run::specs::Contexts::word_at))]
pub fn word_at(machine: &Machine, at: u32) -> u32
    requires { HasStackFrom machine.now at 4 }
    ensures { result ≡ word_at (memory_in machine.now) at }
{
    let low = u32::from(machine.stack_byte(at)) + 256 * u32::from(machine.stack_byte(at + 1));
    let high = u32::from(machine.stack_byte(at + 2)) + 256 * u32::from(machine.stack_byte(at + 3));
    low + 65536 * high
}

/// Stores pc and x1 to x31 below x2, and goes on at an entry with x1 = 0 and x2 below the context.
pub fn enter(machine: &mut Machine, entry: u32)
    requires room { context_bytes ≤ stack_pointer_in machine.old }
    requires stack { HasStackFrom machine.old (stack_pointer_in machine.old - context_bytes) context_bytes }
    ensures { Changes machine.old machine.new (entering entry) }
{
    let from = machine.register(STACK_POINTER) - CONTEXT_BYTES;
    store(machine, from);
    machine.set_pc(entry);
    machine.set_register(RETURN_ADDRESS, 0);
    machine.set_register(STACK_POINTER, from);
}

/// Takes pc and x1 to x31 back from an address on.
pub fn take_back(machine: &mut Machine, from: u32)
    requires stack { HasStackFrom machine.old from context_bytes }
    requires no_more { (r : ℕ) → 32 ≤ r → registers_in machine.old r ≡ 0 }
    ensures { Changes machine.old machine.new (taking_back from) }
{
    for r in 1..32 {
        let value = word_at(machine, from + 4 * r);
        machine.set_register(r, value);
    }
    let pc = word_at(machine, from);
    machine.set_pc(pc);
}
