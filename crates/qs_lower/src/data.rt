// The blocks of data of a unit of linear code: of each only its size is known.
ghost use Rattle.std.specs.Prelude.{◌≡◌, IfOk, length, map};
ghost use Rattle.qs_memory.specs.BlankOf.{blank_tree};
ghost use Rattle.qs_core.specs.TreeOf.{data_block_tree, piece_tree};
ghost use Rattle.qs_core.specs.Units.{piece_cells, cells_of_pieces};
ghost use Rattle.qs_memory.specs.BlankOf.{joined_of};
ghost use Rattle.qs_memory.specs.Sizes.{blank_size};
ghost use Rattle.qs_lower.specs.Units as spec;

use qs_base::{NoMemory, count, product, sum};
use qs_core::{DataBlock, Piece};
use qs_memory::Blank;
use qs_tac::TacData;
use std::alloc::Global;

/// The bytes of a blank.
#[cycle(blank_size)]
pub fn blank_size(b: &Blank) -> Result<u32, NoMemory>
    ensures { IfOk result (λ n. n ≡ blank_size (blank_tree b.now)) }
{
    match b {
        Blank::Zeros(n) => Ok(*n),
        Blank::Nulls(n) => product(4, *n),
        Blank::Repeated(n, part) => product(*n, blank_size(part)?),
        Blank::Joined(parts) => blanks_size(parts),
    }
}

#[cycle(blank_size)]
fn blanks_size(parts: &[Blank]) -> Result<u32, NoMemory>
    ensures { IfOk result (λ n. n ≡ blank_size (joined_of (map blank_tree parts.now))) }
{
    let mut size = 0;
    for part in parts {
        size = sum(size, blank_size(part)?)?;
    }
    Ok(size)
}

#[tactic(auto, using(qs_memory::proofs::BlankLaws::blank_length))]
fn piece_size(p: &Piece) -> Result<u32, NoMemory>
    ensures { IfOk result (λ n. n ≡ length (piece_cells (piece_tree p.now))) }
{
    match p {
        Piece::Blank(b) => blank_size(b),
        Piece::Bytes(bytes) => count(bytes.len()),
        Piece::Address(_, _) => Ok(4),
    }
}

fn pieces_size(ps: &[Piece]) -> Result<u32, NoMemory>
    ensures { IfOk result (λ n. n ≡ length (cells_of_pieces (map piece_tree ps.now))) }
{
    let mut size = 0;
    for p in ps {
        size = sum(size, piece_size(p)?)?;
    }
    Ok(size)
}

fn lower_data(d: &DataBlock) -> Result<TacData, NoMemory>
    ensures { IfOk result (λ r. r ≡ spec.lower_data (data_block_tree d.now)) }
{
    Ok(TacData {
        size: pieces_size(&d.pieces)?,
        is_writable: d.is_writable,
    })
}

/// The blocks of data of a unit, in order.
pub fn lower_data_blocks(alloc: Global, ds: &[DataBlock]) -> Result<Vec<TacData>, NoMemory>
    ensures { IfOk result (λ r. r.items ≡ map spec.lower_data (map data_block_tree ds.now)) }
{
    let mut all = Vec::new(alloc);
    for d in ds {
        all.push(lower_data(d)?)?;
    }
    Ok(all)
}
