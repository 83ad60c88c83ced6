// The executable of an image.
ghost use Rattle.std.specs.Prelude.{◌≡◌, ◌≤◌, length, IfOk};
ghost use Rattle.qs_image.specs.Faults.{HasNoFault};
ghost use Rattle.qs_elf.specs.Parts.{elf_of};
ghost use Rattle.qs_elf.specs.Elf.{most_file_bytes};

use crate::framing::framed;
use crate::parts::parts_of;
use qs_base::NoMemory;
use std::alloc::Global;

/// The executable of an image, as `read` reads it: at most `MOST_FILE_BYTES` bytes.
#[tactic(auto, using(crate::proofs::Laws::small, crate::proofs::Laws::within))]
pub fn write(alloc: Global, image: &[u8]) -> Result<Vec<u8>, NoMemory>
    requires { HasNoFault image.now }
    ensures file { IfOk result (λ file. file.items ≡ elf_of image.now) }
    ensures room { IfOk result (λ file. length file.items ≤ most_file_bytes) }
{
    let p = parts_of(image);
    framed(alloc, &p)
}
