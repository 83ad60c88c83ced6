// What the blocks of a unit begin with, in core: piece by piece, as few as can be.
ghost use Rattle.std.specs.Prelude.{◌≡◌, ◌+◌, true, [], ◌∷◌, IfOk, OnOk, map};
ghost use Rattle.qs_core.specs.TreeOf.{piece_tree, data_block_tree};
ghost use Rattle.qs_typed_trees.specs.TreeOf.{static_block_tree};
ghost use Rattle.qs_elaborate_bodies.specs.Data.{data_core};
ghost use Rattle.qs_elaborate.specs.Pieces.{with_bytes, with_nulls, pointer_before, with_datum};
ghost use Rattle.qs_elaborate.specs.Pieces.{with_contents, bytes_piece, nulls_piece, is_one_run};
ghost use Rattle.qs_elaborate.specs.Pieces.{Appends, Puts, data_cores};

use qs_base::{NoMemory, sum};
use qs_core::{DataBlock, Piece};
use qs_memory::Blank;
use qs_typed_trees::{Datum, StaticBlock};
use std::alloc::Global;
use std::mem::replace;

fn push_piece(pieces: &mut Vec<Piece>, p: Piece) -> Result<(), NoMemory>
    ensures { Appends (piece_tree p ∷ []) pieces.old pieces.new result }
{
    pieces.push(p)?;
    Ok(())
}

// Ends a run of bytes.
fn end_bytes(alloc: Global, pieces: &mut Vec<Piece>, bytes: &mut Vec<u8>) -> Result<(), NoMemory>
    ensures pieces { Appends (bytes_piece bytes.old.items) pieces.old pieces.new result }
    ensures bytes { OnOk result (bytes.new.items ≡ []) }
{
    if bytes.is_empty() {
        return Ok(());
    }
    let run = replace(bytes, Vec::new(alloc));
    push_piece(pieces, Piece::Bytes(run))
}

// Ends a run of null pointers.
fn end_nulls(pieces: &mut Vec<Piece>, nulls: &mut u32) -> Result<(), NoMemory>
    ensures pieces { Appends (nulls_piece nulls.old) pieces.old pieces.new result }
    ensures nulls { OnOk result (nulls.new ≡ 0) }
{
    if *nulls == 0 {
        return Ok(());
    }
    let run = *nulls;
    *nulls = 0;
    push_piece(pieces, Piece::Blank(Blank::Nulls(run)))
}

fn put_bytes(
    out: &mut Vec<Piece>,
    bs: &mut Vec<u8>,
    n: &mut u32,
    more: &[u8],
) -> Result<(), NoMemory>
    requires { is_one_run bs.old.items n.old ≡ true }
    ensures run { OnOk result (is_one_run bs.new.items n.new ≡ true) }
    ensures pieces { Puts (with_bytes more.now) out.old bs.old n.old out.new bs.new n.new result }
{
    if more.is_empty() {
        return Ok(());
    }
    end_nulls(out, n)?;
    bs.extend_from_slice(more)?;
    Ok(())
}

fn put_nulls(
    alloc: Global,
    out: &mut Vec<Piece>,
    bs: &mut Vec<u8>,
    n: &mut u32,
    more: u32,
) -> Result<(), NoMemory>
    requires { is_one_run bs.old.items n.old ≡ true }
    ensures run { OnOk result (is_one_run bs.new.items n.new ≡ true) }
    ensures pieces { Puts (with_nulls more) out.old bs.old n.old out.new bs.new n.new result }
{
    if more == 0 {
        return Ok(());
    }
    end_bytes(alloc, out, bs)?;
    *n = sum(*n, more)?;
    Ok(())
}

fn put_pointer(
    alloc: Global,
    out: &mut Vec<Piece>,
    bs: &mut Vec<u8>,
    n: &mut u32,
    block: u32,
) -> Result<(), NoMemory>
    requires { is_one_run bs.old.items n.old ≡ true }
    ensures run { OnOk result (is_one_run bs.new.items n.new ≡ true) }
    ensures pieces { Puts (pointer_before block) out.old bs.old n.old out.new bs.new n.new result }
{
    end_bytes(alloc, out, bs)?;
    end_nulls(out, n)?;
    push_piece(out, Piece::Address(block, 0))?;
    Ok(())
}

fn put_datum(
    alloc: Global,
    out: &mut Vec<Piece>,
    bs: &mut Vec<u8>,
    n: &mut u32,
    d: &Datum,
) -> Result<(), NoMemory>
    requires { is_one_run bs.old.items n.old ≡ true }
    ensures run { OnOk result (is_one_run bs.new.items n.new ≡ true) }
    ensures pieces { Puts (with_datum d.now) out.old bs.old n.old out.new bs.new n.new result }
{
    match d {
        Datum::Bytes(more) => put_bytes(out, bs, n, more),
        Datum::Nulls(more) => put_nulls(alloc, out, bs, n, *more),
        Datum::Pointer(block) => put_pointer(alloc, out, bs, n, *block),
    }
}

fn pieces_of(alloc: Global, contents: &[Datum]) -> Result<Vec<Piece>, NoMemory>
    ensures { IfOk result (λ ps. map piece_tree ps.items ≡ with_contents contents.now []) }
{
    let mut pieces = Vec::new(alloc);
    let mut bytes = Vec::new(alloc);
    let mut nulls = 0;
    for d in contents {
        put_datum(alloc, &mut pieces, &mut bytes, &mut nulls, d)?;
    }
    end_bytes(alloc, &mut pieces, &mut bytes)?;
    end_nulls(&mut pieces, &mut nulls)?;
    Ok(pieces)
}

fn data_block(alloc: Global, b: &StaticBlock) -> Result<DataBlock, NoMemory>
    ensures { IfOk result (λ d. data_block_tree d ≡ data_core (static_block_tree b.now)) }
{
    let pieces = pieces_of(alloc, &b.contents)?;
    let is_writable = b.is_writable;
    Ok(DataBlock {
        is_writable,
        pieces,
    })
}

/// The blocks of data of a unit.
pub fn data_blocks(alloc: Global, blocks: &[StaticBlock]) -> Result<Vec<DataBlock>, NoMemory>
    ensures { IfOk result (λ ds. map data_block_tree ds.items ≡ data_cores blocks.now) }
{
    let mut data = Vec::new(alloc);
    for b in blocks {
        data.push(data_block(alloc, b)?)?;
    }
    Ok(data)
}
