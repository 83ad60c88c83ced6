// The bytes of a block one by one, while initialisers are written over them.
ghost use Rattle.std.specs.Prelude.{◌≡◌, IsTrue, map};
ghost use Rattle.qs_memory.specs.Memory.{byte, parts_of};
ghost use Rattle.qs_typed_units.specs.CellsOf.{AddsCells, Overwrites, PutsCell, begun_cells, cell_tree};
ghost use Rattle.qs_typed_units.specs.CellsOf.{cells_tree, pointer_cells, target_tree};
ghost use Rattle.qs_typed_forms.specs.Results.{Makes};
ghost use Rattle.qs_typed_trees.specs.TreeOf.{contents_cells, data_cells, datum_cells};

use crate::contents::{Contents, Target};
use qs_base::NoMemory;
use qs_typed_trees::Datum;
use std::alloc::Global;

/// What a byte of memory holds.
#[derive(Clone, Copy)]
pub enum Cell {
    /// a number
    Byte(u8),
    /// the part of a pointer with this number, from 0 to 3
    Part(Target, u32),
}

// ---- from data

/// Adds bytes.
pub fn push_bytes(cells: &mut Vec<Cell>, bytes: &[u8]) -> Result<(), NoMemory>
    ensures { AddsCells (map byte bytes.now) cells.old cells.new result }
{
    for b in bytes {
        cells.push(Cell::Byte(*b))?;
    }
    Ok(())
}

/// Adds the parts of a pointer.
pub fn push_pointer(cells: &mut Vec<Cell>, target: Target) -> Result<(), NoMemory>
    ensures { AddsCells (pointer_cells target) cells.old cells.new result }
{
    cells.push(Cell::Part(target, 0))?;
    cells.push(Cell::Part(target, 1))?;
    cells.push(Cell::Part(target, 2))?;
    cells.push(Cell::Part(target, 3))?;
    Ok(())
}

fn push_nulls(cells: &mut Vec<Cell>, n: u32) -> Result<(), NoMemory>
    ensures { AddsCells (datum_cells (Datum.Nulls n)) cells.old cells.new result }
{
    for _ in 0..n {
        push_pointer(cells, Target::Null)?;
    }
    Ok(())
}

fn push_datum(cells: &mut Vec<Cell>, d: &Datum) -> Result<(), NoMemory>
    ensures { AddsCells (datum_cells d.now) cells.old cells.new result }
{
    match d {
        Datum::Bytes(bytes) => push_bytes(cells, bytes),
        Datum::Nulls(n) => push_nulls(cells, *n),
        Datum::Pointer(block) => push_pointer(cells, Target::Static(*block)),
    }
}

/// The bytes of data, one by one.
pub fn cells_of(alloc: Global, parts: &[Datum]) -> Result<Vec<Cell>, NoMemory>
    ensures { Makes cells_tree (contents_cells parts.now) result }
{
    let mut cells = Vec::new(alloc);
    for d in parts {
        push_datum(&mut cells, d)?;
    }
    Ok(cells)
}

// ---- initialisers

/// Puts cells in place of those from this place on.
#[tactic(auto, using(crate::proofs::DataOrder::over))]
pub fn write_over(cells: &mut [Cell], at: u32, new: &[Cell]) -> Result<(), NoMemory>
    ensures { Overwrites at new.now cells.old cells.new result }
{
    let at = at as usize;
    if at > cells.len() || new.len() > cells.len() - at {
        return Err(NoMemory);
    }
    cells[at..at + new.len()].copy_from_slice(new);
    Ok(())
}

// ---- to data

/// The first parts of a pointer, where the others are still to come.
#[derive(Clone, Copy)]
pub struct Begun {
    /// where it goes
    target: Target,
    /// how many parts have come
    parts: u32,
}

fn same_target(a: Target, b: Target) -> bool
    ensures { IsTrue result → a ≡ b }
{
    match (a, b) {
        (Target::Null, Target::Null) => true,
        (Target::Static(k), Target::Static(n)) => k == n,
        _ => false,
    }
}

fn put_byte(
    alloc: Global,
    n: u8,
    begun: &mut Begun,
    contents: &mut Contents,
) -> Result<(), NoMemory>
    ensures { PutsCell (Cell.Byte n) begun.old contents.old begun.new contents.new result }
{
    if begun.parts > 0 {
        return Err(NoMemory);
    }
    contents.byte(alloc, n)
}

fn goes_on(begun: Begun, target: Target, k: u32) -> bool
    ensures { IsTrue result → begun_cells begun ≡ parts_of (target_tree target) 0 k }
{
    begun.parts == k && (k == 0 || same_target(begun.target, target))
}

fn put_part(
    alloc: Global,
    target: Target,
    k: u32,
    begun: &mut Begun,
    contents: &mut Contents,
) -> Result<(), NoMemory>
    ensures { PutsCell (Cell.Part target k) begun.old contents.old begun.new contents.new result }
{
    if k > 3 || !goes_on(*begun, target, k) {
        return Err(NoMemory);
    }
    if k < 3 {
        *begun = Begun {
            target,
            parts: k + 1,
        };
        return Ok(());
    }
    begun.parts = 0;
    contents.pointer(alloc, target)
}

fn put_cell(
    alloc: Global,
    cell: Cell,
    begun: &mut Begun,
    contents: &mut Contents,
) -> Result<(), NoMemory>
    ensures { PutsCell cell begun.old contents.old begun.new contents.new result }
{
    match cell {
        Cell::Byte(n) => put_byte(alloc, n, begun, contents),
        Cell::Part(target, k) => put_part(alloc, target, k, begun, contents),
    }
}

/// The data of which these are the bytes; want of memory where they hold a part of a pointer alone.
pub fn data_of(alloc: Global, cells: &[Cell]) -> Result<Vec<Datum>, NoMemory>
    ensures { Makes data_cells (map cell_tree cells.now) result }
{
    let mut contents = Contents::new(alloc);
    let mut begun = Begun {
        target: Target::Null,
        parts: 0,
    };
    for cell in cells {
        put_cell(alloc, *cell, &mut begun, &mut contents)?;
    }
    if begun.parts > 0 {
        return Err(NoMemory);
    }
    contents.finish(alloc)
}
