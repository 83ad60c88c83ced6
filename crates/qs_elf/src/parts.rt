// The parts of an image, and of a file.
ghost use Rattle.std.specs.Prelude.{◌≡◌, ◌≤◌, ◌+◌, ◌*◌, length};
ghost use Rattle.qs_image.specs.Bytes.{word};
ghost use Rattle.qs_image.specs.Faults.{HasNoFault};
ghost use Rattle.qs_elf.specs.Elf.{head_at};
ghost use Rattle.qs_elf.specs.Faults.{stated_bytes};
ghost use Rattle.qs_elf.specs.Parts.{parts_in, parts_of, parts_tree};

use crate::layout::{HEAD_AT, code_at, data_at};
use byteorder::{ByteOrder, LittleEndian};

/// What a file is made from: the address of the first instruction to run, the bytes of the image
/// before its code, those of the code and of the data.
#[derive(Drop)]
pub struct Parts<'a> {
    pub entry: u32,
    pub head: &'a [u8],
    pub code: &'a [u8],
    pub data_bytes: &'a [u8],
}

/// Word number `w`, from 0.
pub fn word(bytes: &[u8], w: usize) -> u32
    requires { 4 * w + 4 ≤ length bytes.now }
    ensures { result ≡ word w bytes.now }
{
    LittleEndian::read_u32(&bytes[4 * w..])
}

/// The parts of an image.
#[tactic(auto, using(crate::proofs::Laws::room))]
pub fn parts_of<'a>(image: &'a [u8]) -> Parts<'a>
    requires { HasNoFault image.now }
    ensures { parts_tree result ≡ parts_of image.now }
{
    let code = 4 * word(image, 1) as usize;
    let data = word(image, 2) as usize;
    let (head, rest) = image.split_at(image.len() - (code + data));
    let (code, data_bytes) = rest.split_at(code);
    Parts {
        entry: word(image, 5),
        head,
        code,
        data_bytes,
    }
}

/// The parts of a file, by the sizes that it states.
pub fn parts_in<'a>(file: &'a [u8]) -> Parts<'a>
    requires long { head_at ≤ length file.now }
    requires whole { length file.now ≡ stated_bytes file.now }
    ensures { parts_tree result ≡ parts_in file.now }
{
    let head = word(file, 38) as usize;
    let code = word(file, 17) as usize;
    Parts {
        entry: word(file, 6),
        head: &file[HEAD_AT..][..head],
        code: &file[code_at(head)..][..code],
        data_bytes: &file[data_at(head, code)..],
    }
}
