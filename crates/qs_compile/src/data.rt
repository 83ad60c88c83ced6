// The bytes of a unit's data.
ghost use Rattle.std.specs.Prelude.{◌≡◌, ◌-◌, OnOk, IfOk, replicate};
ghost use Rattle.qs_image.specs.Image.{word_bytes};
ghost use Rattle.qs_frames.specs.Layout.{rounded};
ghost use Rattle.qs_compile.specs.Program as program;
ghost use Rattle.qs_compile.specs.Program.{Puts, bytes_of_pieces};

use qs_base::{NoMemory, add32};
use qs_core::{DataBlock, Piece};
use qs_frames::Starts;
use qs_lower::blank_size;
use std::alloc::Global;

// The bytes from a size to the next multiple of 4.
#[tactic(auto, using(crate::proofs::ByteLaws::gap_cases))]
fn gap(size: usize) -> u32
    ensures { result ≡ rounded size - size }
{
    let over = size % 4;
    if over == 0 { 0 } else { 4 - over as u32 }
}

fn put_zeros(bytes: &mut Vec<u8>, count: u32) -> Result<(), NoMemory>
    ensures { OnOk result (Puts bytes.old bytes.new (replicate count 0)) }
{
    for _k in 0..count {
        bytes.push(0)?;
    }
    Ok(())
}

fn put_word(bytes: &mut Vec<u8>, word: u32) -> Result<(), NoMemory>
    ensures { OnOk result (Puts bytes.old bytes.new (word_bytes word)) }
{
    bytes.extend_from_slice(&word.to_le_bytes())?;
    Ok(())
}

fn put_piece(bytes: &mut Vec<u8>, starts: &Starts, p: &Piece) -> Result<(), NoMemory>
    ensures { OnOk result (Puts bytes.old bytes.new (program.bytes_of_piece starts.now p.now)) }
{
    match p {
        Piece::Blank(b) => put_zeros(bytes, blank_size(b)?),
        Piece::Bytes(more) => {
            bytes.extend_from_slice(more)?;
            Ok(())
        }
        Piece::Address(block, offset) => put_word(bytes, add32(starts.start(*block), *offset)),
    }
}

fn put_pieces(bytes: &mut Vec<u8>, starts: &Starts, pieces: &[Piece]) -> Result<(), NoMemory>
    ensures { OnOk result (Puts bytes.old bytes.new (bytes_of_pieces starts.now pieces.now)) }
{
    for p in pieces {
        put_piece(bytes, starts, p)?;
    }
    Ok(())
}

/// The bytes of the data whose blocks begin there: one block behind the other, each at the next
/// multiple of 4, and nothing behind the last.
pub fn data_bytes(alloc: Global, starts: &Starts, blocks: &[DataBlock]) -> Result<Vec<u8>, NoMemory>
    ensures { IfOk result (λ bytes. bytes.items ≡ program.bytes_of_blocks starts.now blocks.now) }
{
    let mut bytes = Vec::new(alloc);
    for block in blocks {
        let gap = gap(bytes.len());
        put_zeros(&mut bytes, gap)?;
        put_pieces(&mut bytes, starts, &block.pieces)?;
    }
    Ok(bytes)
}
