// What a block holds, gathered in the order of its bytes.
ghost use Rattle.std.specs.Prelude.{◌≡◌, ◌∷◌, [], ◌*◌, IfOk, OnOk, map};
ghost use Rattle.qs_memory.specs.BlankOf.{blank_tree};
ghost use Rattle.qs_memory.specs.Memory.{blank_cells, byte, times};
ghost use Rattle.qs_typed_units.specs.CellsOf.{AddsData, Gathers, GathersRun, blanks_cells};
ghost use Rattle.qs_typed_units.specs.CellsOf.{contents_tree, null_cells, pointer_cells};
ghost use Rattle.qs_typed_forms.specs.Results.{Makes};
ghost use Rattle.qs_typed_trees.specs.TreeOf.{contents_cells, data_cells};

use qs_base::{NoMemory, product, sum};
use qs_memory::Blank;
use qs_typed_trees::Datum;
use std::alloc::Global;
use std::mem::replace;

/// Where a pointer that is there from the beginning goes.
#[derive(Clone, Copy)]
pub enum Target {
    /// nowhere: a null pointer
    Null,
    /// to the first byte of the static block with this number
    Static(u32),
}

/// The data of a block so far.
#[derive(Drop)]
pub struct Contents {
    /// those that are whole
    whole: Vec<Datum>,
    /// the bytes behind them
    bytes: Vec<u8>,
    /// how many null pointers stand behind these
    nulls: u32,
}

/// Ends a run of bytes.
#[tactic(auto, using(crate::proofs::DataOrder::bytes_ended))]
fn end_bytes(alloc: Global, whole: &mut Vec<Datum>, bytes: &mut Vec<u8>) -> Result<(), NoMemory>
    ensures cells { AddsData (map byte bytes.old.items) whole.old whole.new result }
    ensures bytes { OnOk result (bytes.new.items ≡ []) }
{
    if bytes.is_empty() {
        return Ok(());
    }
    let run = replace(bytes, Vec::new(alloc));
    whole.push(Datum::Bytes(run))?;
    Ok(())
}

/// Ends a run of null pointers.
#[tactic(auto, using(crate::proofs::DataOrder::nulls_ended))]
fn end_nulls(whole: &mut Vec<Datum>, nulls: &mut u32) -> Result<(), NoMemory>
    ensures cells { AddsData (null_cells nulls.old) whole.old whole.new result }
    ensures nulls { OnOk result (nulls.new ≡ 0) }
{
    if *nulls == 0 {
        return Ok(());
    }
    whole.push(Datum::Nulls(*nulls))?;
    *nulls = 0;
    Ok(())
}

impl Contents {
    /// No data yet.
    pub fn new(alloc: Global) -> Contents
        ensures { contents_tree result ≡ [] }
    {
        Contents {
            whole: Vec::new(alloc),
            bytes: Vec::new(alloc),
            nulls: 0,
        }
    }

    /// Makes all data whole.
    fn end_runs(&mut self, alloc: Global) -> Result<(), NoMemory>
        ensures cells { OnOk result (contents_cells self.new.whole.items ≡ contents_tree self.old) }
        ensures bytes { OnOk result (self.new.bytes.items ≡ []) }
        ensures nulls { OnOk result (self.new.nulls ≡ 0) }
    {
        end_bytes(alloc, &mut self.whole, &mut self.bytes)?;
        end_nulls(&mut self.whole, &mut self.nulls)
    }

    /// Makes room for a byte behind the others.
    fn expect_bytes(&mut self, alloc: Global) -> Result<(), NoMemory>
        ensures cells { OnOk result (contents_tree self.new ≡ contents_tree self.old) }
        ensures nulls { OnOk result (self.new.nulls ≡ 0) }
    {
        if self.nulls == 0 {
            return Ok(());
        }
        self.end_runs(alloc)
    }

    /// Adds a byte.
    pub fn byte(&mut self, alloc: Global, n: u8) -> Result<(), NoMemory>
        ensures { Gathers (byte n ∷ []) self.old self.new result }
    {
        self.expect_bytes(alloc)?;
        self.bytes.push(n)?;
        Ok(())
    }

    /// Adds so many bytes 0.
    pub fn zeros(&mut self, alloc: Global, n: u32) -> Result<(), NoMemory>
        ensures { Gathers (times n (byte 0 ∷ [])) self.old self.new result }
    {
        self.expect_bytes(alloc)?;
        let len = self.bytes.len() + n as usize;
        self.bytes.resize(len, 0)?;
        Ok(())
    }

    /// Adds so many null pointers.
    pub fn nulls(&mut self, n: u32) -> Result<(), NoMemory>
        ensures { Gathers (null_cells n) self.old self.new result }
    {
        self.nulls = sum(self.nulls, n)?;
        Ok(())
    }

    /// Adds a pointer.
    pub fn pointer(&mut self, alloc: Global, target: Target) -> Result<(), NoMemory>
        ensures { Gathers (pointer_cells target) self.old self.new result }
    {
        match target {
            Target::Null => self.nulls(1),
            Target::Static(block) => {
                self.end_runs(alloc)?;
                self.whole.push(Datum::Pointer(block))?;
                Ok(())
            }
        }
    }

    /// Adds a part so many times at once, if it is zeros or null pointers alone.
    fn run(&mut self, alloc: Global, n: u32, part: &Blank) -> Result<bool, NoMemory>
        ensures { GathersRun n part.now self.old self.new result }
    {
        match part {
            Blank::Zeros(k) => {
                self.zeros(alloc, product(n, *k)?)?;
                Ok(true)
            }
            Blank::Nulls(k) => {
                self.nulls(product(n, *k)?)?;
                Ok(true)
            }
            Blank::Repeated(_, _) => Ok(false),
            Blank::Joined(_) => Ok(false),
        }
    }

    /// All data, in order.
    pub fn finish(self, alloc: Global) -> Result<Vec<Datum>, NoMemory>
        ensures { Makes data_cells (contents_tree self) result }
    {
        let mut contents = self;
        contents.end_runs(alloc)?;
        Ok(contents.whole)
    }
}

/// Adds zeros and null pointers.
#[cycle(blank)]
pub fn put_blank(alloc: Global, b: &Blank, contents: &mut Contents) -> Result<(), NoMemory>
    ensures { Gathers (blank_cells (blank_tree b.now)) contents.old contents.new result }
{
    match b {
        Blank::Zeros(n) => contents.zeros(alloc, *n),
        Blank::Nulls(n) => contents.nulls(*n),
        Blank::Repeated(n, part) => {
            if contents.run(alloc, *n, part)? {
                return Ok(());
            }
            for _ in 0..*n {
                put_blank(alloc, part, contents)?;
            }
            Ok(())
        }
        Blank::Joined(parts) => put_blanks(alloc, parts, contents),
    }
}

#[cycle(blank)]
fn put_blanks(alloc: Global, parts: &[Blank], contents: &mut Contents) -> Result<(), NoMemory>
    ensures { Gathers (blanks_cells parts.now) contents.old contents.new result }
{
    for part in parts {
        put_blank(alloc, part, contents)?;
    }
    Ok(())
}
