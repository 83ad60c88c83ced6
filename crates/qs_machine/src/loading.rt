// The machine at its start.
ghost use Rattle.std.specs.Prelude.{◌≡◌, ◌≤◌, length, map, IfOk, IfErr};
ghost use Rattle.qs_isa.specs.Table.{decode_of};
ghost use Rattle.qs_image.specs.Image.{words_bytes};
ghost use Rattle.qs_machine.specs.declared.loading.LoadFault.TheVariants.{NoMemory};
ghost use Rattle.qs_machine.specs.State.{stack_top, stack_base, stack_limit};
ghost use Rattle.qs_machine.specs.Hart.{AreZeros, HoldsData};
ghost use Rattle.qs_machine.specs.Standing.{taken_of};
ghost use Rattle.qs_machine.specs.Running.{StandsAtStart, MayLoad, IsLoadFault};

use crate::machine::Machine;
use crate::memory::Memory;
use crate::pages::Pages;
use crate::regions::{STACK_LIMIT, STACK_TOP};
use crate::registers::Registers;
use qs_base::NoMemory;
use qs_image::ImageView;
use qs_isa::{DATA_START, Instr, StoreKind, decode};
use std::alloc::{AllocError, Global};
use thiserror::Error;

/// Why an image is not loaded.
#[derive(Clone, Copy, Debug, Error)]
pub enum LoadFault {
    /// The stack has more than 2^28 bytes.
    #[error("stack too large")]
    StackTooLarge,
    /// The image's main has this count of parameters, and the count of arguments is another.
    #[error("arguments: expected {0}")]
    ArgCount(u32),
    /// No memory was found.
    #[error("out of memory")]
    NoMemory,
}

impl From<NoMemory> for LoadFault {
    ghost from_gives = { λ _ fault. fault ≡ NoMemory };

    fn from(_fault: NoMemory) -> LoadFault {
        LoadFault::NoMemory
    }
}

fn code_bytes(alloc: Global, image: &ImageView<'_>) -> Result<Vec<u8>, NoMemory>
    ensures { IfOk result (λ bytes. bytes.items ≡ words_bytes image.now.code) }
{
    let mut bytes = Vec::new(alloc);
    for i in 0..image.code_count() {
        bytes.extend_from_slice(&image.code(i).to_le_bytes())?;
    }
    Ok(bytes)
}

fn instructions(alloc: Global, image: &ImageView<'_>) -> Result<Vec<Option<Instr>>, NoMemory>
    ensures { IfOk result (λ instructions. instructions.items ≡ map decode_of image.now.code) }
{
    let mut instructions = Vec::new(alloc);
    for i in 0..image.code_count() {
        instructions.push(decode(image.code(i)))?;
    }
    Ok(instructions)
}

fn data_pages(alloc: Global, image: &ImageView<'_>) -> Result<Pages, NoMemory>
    ensures { IfOk result (HoldsData image.now.bytes) }
{
    let count = image.byte_count();
    let mut pages = Pages::zeros(alloc, DATA_START, DATA_START + count)?;
    for i in 0..count {
        pages.write(StoreKind::Sb, DATA_START + i, u32::from(image.bytes(i)));
    }
    Ok(pages)
}

fn stack_pages(alloc: Global, size: u64) -> Result<Pages, NoMemory>
    requires { size ≤ stack_limit }
    ensures { IfOk result (AreZeros (stack_base size) stack_top) }
{
    Pages::zeros(alloc, STACK_TOP - size as u32, STACK_TOP)
}

/// Loads an image, on a stack of so many bytes and with these arguments for its parameters, each a
/// word (a negative number in two's complement). The machine stands at the start of the program,
/// whatever its input will be.
pub fn load(
    alloc: Global,
    image: &ImageView<'_>,
    stack: u64,
    args: &[u32],
) -> Result<Machine, LoadFault>
    ensures start { IfOk result (λ machine. StandsAtStart machine image.now stack args.now) }
    ensures fresh { IfOk result (λ machine. taken_of machine ≡ 0) }
    ensures loads { IfOk result (λ _. MayLoad stack image.now.parameters (length args.now)) }
    ensures fault { IfErr result (IsLoadFault stack image.now.parameters (length args.now)) }
{
    if stack > STACK_LIMIT {
        return Err(LoadFault::StackTooLarge);
    }
    if args.len() != image.parameters() as usize {
        return Err(LoadFault::ArgCount(image.parameters()));
    }
    Ok(Machine {
        instructions: instructions(alloc, image)?,
        memory: Memory {
            code: code_bytes(alloc, image)?,
            data: data_pages(alloc, image)?,
            stack: stack_pages(alloc, stack)?,
        },
        registers: Registers::at_start(args),
        pc: image.entry(),
        taken: 0,
        ended: None,
    })
}
