// The source of a sample.
ghost use Rattle.std.specs.Prelude.{◌≡◌, ◌<◌, ◌-◌, ◌^◌, IfOk, decimal};
ghost use Rattle.qs_driver_session.specs.SampleSource as meant;

use itoa::Buffer;
use qs_base::NoMemory;
use std::alloc::Global;

fn put(text: &mut Vec<u8>, piece: &[u8]) -> Result<(), NoMemory>
    ensures { meant.Adds text.old text.new piece.now result }
{
    text.extend_from_slice(piece)?;
    Ok(())
}

fn put_number(text: &mut Vec<u8>, number: u64) -> Result<(), NoMemory>
    ensures { meant.Adds text.old text.new (decimal number) result }
{
    let mut digits = Buffer::new();
    put(text, digits.format(number).as_bytes())
}

fn put_between(text: &mut Vec<u8>, head: &[u8], number: u64, tail: &[u8]) -> Result<(), NoMemory>
    ensures { meant.Adds text.old text.new (meant.between head.now number tail.now) result }
{
    put(text, head)?;
    put_number(text, number)?;
    put(text, tail)
}

// The function of this number, which calls that of the other.
fn put_calling(text: &mut Vec<u8>, number: u64, callee: u64) -> Result<(), NoMemory>
    ensures { meant.Adds text.old text.new (meant.calling number callee) result }
{
    put_between(text, b"int f", number, b"(int x)")?;
    put_between(text, b"{return f", callee, b"(x+1);}\n")
}

// The function that comes after so many others.
fn put_function(text: &mut Vec<u8>, before: u64) -> Result<(), NoMemory>
    requires { before < 2 ^ 64 - 1 }
    ensures { meant.Adds text.old text.new (meant.function_after before) result }
{
    if before == 0 {
        put(text, b"int f1(int x){return x+1;}\n")
    } else {
        put_calling(text, before + 1, before)
    }
}

// As many functions.
fn put_functions(text: &mut Vec<u8>, count: u64) -> Result<(), NoMemory>
    ensures { meant.Adds text.old text.new (meant.functions count) result }
{
    for before in 0..count {
        put_function(text, before)?;
    }
    Ok(())
}

// The function main, which calls the last one.
fn put_main(text: &mut Vec<u8>, count: u64) -> Result<(), NoMemory>
    ensures { meant.Adds text.old text.new (meant.main_function count) result }
{
    put_between(
        text,
        b"int main(void){putchar('0'+f",
        count,
        b"(0)%10);return 0;}\n",
    )
}

/// The source of a sample of so many functions, each of which calls the one before, and of main,
/// which calls the last one. It fails where no memory is found.
pub fn sample_text(alloc: Global, count: u64) -> Result<Vec<u8>, NoMemory>
    ensures { IfOk result (λ text. text.items ≡ meant.sample_text count) }
{
    let mut text = Vec::new(alloc);
    put_functions(&mut text, count)?;
    put_main(&mut text, count)?;
    Ok(text)
}
