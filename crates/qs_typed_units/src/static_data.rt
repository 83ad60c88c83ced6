// The blocks of file-scope variables (C11 6.7.9, 6.9.2).
ghost use Rattle.std.specs.Prelude.{map, option_map};
ghost use Rattle.qs_syntax.specs.TreeOf.{decl_tree, initialiser_tree, variable_tree};
ghost use Rattle.qs_types.specs.TypeOf.{type_tree};
ghost use Rattle.qs_typed_units.specs.BlocksOf.{AddsBlocks, Holds, WritesPieces};
ghost use Rattle.qs_typed_units.specs.CellsOf.{cells_tree};
ghost use Rattle.qs_typed_units.specs.KnownBlocks.{blank_cells_known, blocks_known, file_variables_known};
ghost use Rattle.qs_typed_units.specs.KnownBlocks.{initial_cells_known, initialised_cells_known};
ghost use Rattle.qs_typed_units.specs.KnownBlocks.{piece_cells_known, variable_block_known};
ghost use Rattle.qs_typed_nodes.specs.PieceOf.{piece_tree};
ghost use Rattle.qs_typed_units.specs.TablesOf.{Finds};
ghost use Rattle.qs_typed_trees.specs.TreeOf.{blocks_tree, data_cells, static_block_tree};

use crate::cells::{Cell, cells_of, data_of, write_over};
use crate::constants::{array_cells, constant_cells};
use crate::contents::{Contents, put_blank};
use crate::tables::Tables;
use qs_base::NoMemory;
use qs_syntax::{Decl, Initialiser, Variable};
use qs_typed_nodes::{Piece, blank_of, pieces, type_in};
use qs_typed_trees::{Datum, StaticBlock};
use qs_types::{CType, is_array};
use std::alloc::Global;

fn piece_cells(alloc: Global, t: &Tables<'_>, p: Piece<'_>) -> Result<Vec<Cell>, NoMemory>
    ensures { Finds cells_tree piece_cells_known t.now (piece_tree p.entry) result }
{
    if is_array(p.of) {
        array_cells(alloc, p.of, p.expression)
    } else {
        constant_cells(alloc, t, p.of, p.expression)
    }
}

/// Writes each piece over the bytes that are there (C11 6.7.9p19).
fn pieces_over(
    alloc: Global,
    t: &Tables<'_>,
    ps: &[Piece<'_>],
    cells: &mut [Cell],
) -> Result<(), NoMemory>
    ensures { WritesPieces t.now ps.now cells.old cells.new result }
{
    for p in ps {
        let new = piece_cells(alloc, t, *p)?;
        write_over(cells, p.offset, &new)?;
    }
    Ok(())
}

/// What an object holds that isn't initialised (C11 6.7.9p10).
fn blank_data(alloc: Global, t: &Tables<'_>, of: &CType) -> Result<Vec<Datum>, NoMemory>
    ensures { Finds data_cells blank_cells_known t.now (type_tree of.now) result }
{
    let blank = blank_of(alloc, t.env, of)?;
    let mut contents = Contents::new(alloc);
    put_blank(alloc, &blank, &mut contents)?;
    contents.finish(alloc)
}

/// What an object with an initialiser holds: where that says nothing, what it holds without (C11
/// 6.7.9p21).
fn initialised_data(
    alloc: Global,
    t: &Tables<'_>,
    of: &CType,
    i: &Initialiser,
) -> Result<Vec<Datum>, NoMemory>
    ensures { Holds initialised_cells_known t.now of.now (initialiser_tree i.now) result }
{
    let blank = blank_data(alloc, t, of)?;
    let ps = pieces(alloc, t.env, i, of, 0)?;
    let mut cells = cells_of(alloc, &blank)?;
    pieces_over(alloc, t, &ps, &mut cells)?;
    data_of(alloc, &cells)
}

fn initial_data(
    alloc: Global,
    t: &Tables<'_>,
    of: &CType,
    i: &Option<Initialiser>,
) -> Result<Vec<Datum>, NoMemory>
    ensures { Holds initial_cells_known t.now of.now (option_map initialiser_tree i.now) result }
{
    match i {
        None => blank_data(alloc, t, of),
        Some(i) => initialised_data(alloc, t, of, i),
    }
}

fn variable_block(alloc: Global, t: &Tables<'_>, v: &Variable) -> Result<StaticBlock, NoMemory>
    ensures { Finds static_block_tree variable_block_known t.now (variable_tree v.now) result }
{
    match type_in(t.types, v.declarator.node.id) {
        None => Err(NoMemory),
        Some(of) => {
            let contents = initial_data(alloc, t, of, &v.initialiser)?;
            Ok(StaticBlock {
                contents,
                is_writable: true,
            })
        }
    }
}

#[tactic(auto, using(crate::proofs::BlockTurns::variable_more))]
fn file_variables(
    alloc: Global,
    t: &Tables<'_>,
    vs: &[Variable],
) -> Result<Vec<StaticBlock>, NoMemory>
    ensures { Finds blocks_tree file_variables_known t.now (map variable_tree vs.now) result }
{
    let mut all = Vec::new(alloc);
    for v in vs {
        all.push(variable_block(alloc, t, v)?)?;
    }
    Ok(all)
}

#[tactic(auto, using(crate::proofs::BlockTurns::variables_more))]
fn add_declaration(
    alloc: Global,
    t: &Tables<'_>,
    d: &Decl,
    all: &mut Vec<StaticBlock>,
) -> Result<(), NoMemory>
    ensures { AddsBlocks t.now (decl_tree d.now) all.old all.new result }
{
    match d {
        Decl::Struct(_) => Ok(()),
        Decl::Forward(_) => Ok(()),
        Decl::Typedef(_) => Ok(()),
        Decl::Function(_) => Ok(()),
        Decl::Variable(d) => {
            let mut now = file_variables(alloc, t, &d.variables)?;
            all.append(&mut now)?;
            Ok(())
        }
    }
}

/// The blocks of the variables of a unit, in order. Want of memory is the other answer.
pub fn blocks(alloc: Global, t: &Tables<'_>, ds: &[Decl]) -> Result<Vec<StaticBlock>, NoMemory>
    ensures { Finds blocks_tree blocks_known t.now (map decl_tree ds.now) result }
{
    let mut all = Vec::new(alloc);
    for d in ds {
        add_declaration(alloc, t, d, &mut all)?;
    }
    Ok(all)
}
