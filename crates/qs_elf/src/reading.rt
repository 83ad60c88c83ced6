// The image of an executable.
ghost use Rattle.std.specs.Prelude.{◌≡◌, ◌≤◌, List, ℕ, length, None, option_map, IfOk, IfErr};
ghost use Rattle.qs_image.specs.Faults.{HasNoFault};
ghost use Rattle.qs_elf.specs.declared.fault.ElfFault.TheVariants.{Differs};
ghost use Rattle.qs_elf.specs.Elf.{most_file_bytes, head_at, image_of, elf_bytes};
ghost use Rattle.qs_elf.specs.Parts.{parts_tree, IsElfOf};
ghost use Rattle.qs_elf.specs.Faults.{difference_from, stated_bytes, word_fault, image_fault, Halts, Comes, Answers};
ghost use Rattle.qs_elf.specs.Framing.{IsSmall};

use crate::fault::{ElfFault, StatedWord};
use crate::framing::framed;
use crate::layout::{HEAD_AT, file_bytes};
use crate::parts::{Parts, parts_in, word};
use qs_base::NoMemory;
use std::alloc::Global;

fn first_difference(file: &[u8], other: &[u8]) -> Option<usize>
    requires { length file.now ≡ length other.now }
    ensures { result ≡ difference_from 0 file.now other.now }
{
    for (at, byte) in file.iter().enumerate() {
        if *byte != other[at] {
            return Some(at);
        }
    }
    None
}

fn image_of(alloc: Global, p: &Parts<'_>) -> Result<Vec<u8>, NoMemory>
    ensures { IfOk result (λ bytes. bytes.items ≡ image_of (parts_tree p.now)) }
{
    let mut bytes = Vec::new(alloc);
    bytes.extend_from_slice(p.head)?;
    bytes.extend_from_slice(p.code)?;
    bytes.extend_from_slice(p.data_bytes)?;
    Ok(bytes)
}

fn stated_end(file: &[u8]) -> usize
    requires { head_at ≤ length file.now }
    ensures { result ≡ stated_bytes file.now }
{
    let head = word(file, 38) as usize;
    let code = word(file, 17) as usize;
    let data = word(file, 25) as usize;
    file_bytes(head, code, data)
}

fn field_fault(alloc: Global, file: &[u8], p: &Parts<'_>) -> Result<Option<usize>, NoMemory>
    requires small { IsSmall (parts_tree p.now) }
    requires whole { length file.now ≡ length (elf_bytes (parts_tree p.now)) }
    ensures { IfOk result (λ at. at ≡ difference_from 0 file.now (elf_bytes (parts_tree p.now))) }
{
    let framed = framed(alloc, p)?;
    Ok(first_difference(file, &framed))
}

#[tactic(auto, using(crate::proofs::Laws::room))]
fn word_fault(p: &Parts<'_>, image: &[u8]) -> Option<StatedWord>
    requires same { image.now ≡ image_of (parts_tree p.now) }
    requires accepted { HasNoFault image.now }
    ensures { option_map Differs result ≡ word_fault (parts_tree p.now) }
{
    if p.entry != word(image, 5) {
        Some(StatedWord::Entry)
    } else if p.code.len() != 4 * word(image, 1) as usize {
        Some(StatedWord::Code)
    } else if p.data_bytes.len() != word(image, 2) as usize {
        Some(StatedWord::Data)
    } else {
        None
    }
}

fn carried(alloc: Global, p: &Parts<'_>) -> Result<Vec<u8>, ElfFault>
    ensures image { IfOk result (λ bytes. (bytes.items ≡ image_of (parts_tree p.now)) × (image_fault (parts_tree p.now) ≡ None)) }
    ensures fault { IfErr result (Halts (image_fault (parts_tree p.now))) }
{
    let image = image_of(alloc, p)?;
    if let Err(fault) = qs_image::read(&image) {
        return Err(ElfFault::Image(fault));
    }
    match word_fault(p, &image) {
        Some(word) => Err(ElfFault::Differs(word)),
        None => Ok(image),
    }
}

/// The image of an executable. `Ok` comes exactly where the bytes are the executable of an image,
/// which then is the one that is answered; else the fault is that of the first test that fails.
#[tactic(auto, using(crate::proofs::ReadingLaws::as_long, crate::proofs::ReadingLaws::small_file))]
pub fn read(alloc: Global, file: &[u8]) -> Result<Vec<u8>, ElfFault>
    requires { length file.now ≤ most_file_bytes }
    ensures image { IfOk result (λ image. IsElfOf file.now image.items) }
    ensures accepts { (image : List ℕ) → IsElfOf file.now image → Answers result image }
    ensures fault { IfErr result (Comes file.now) }
{
    if file.len() < HEAD_AT {
        return Err(ElfFault::Short);
    }
    let end = stated_end(file);
    if file.len() != end {
        return Err(ElfFault::Length(end));
    }
    let p = parts_in(file);
    if let Some(at) = field_fault(alloc, file, &p)? {
        return Err(ElfFault::Field(at));
    }
    carried(alloc, &p)
}
