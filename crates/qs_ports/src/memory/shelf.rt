// Files over room that was reserved before.
ghost use Rattle.std.specs.Prelude.{◌≡◌, ◌+◌, ◌-◌, ◌≤◌, ◌++◌};
ghost use Rattle.std.specs.Prelude.{IsTrue, IfOk, OnOk, OnErr, IsSome, false};
ghost use Rattle.std.specs.Prelude.{length, take, drop, min, option_copied, is_some};
ghost use Rattle.qs_ports.specs.Cells.{room_of};
ghost use Rattle.qs_ports.specs.Shelf.{HasFiles, IsCurrent, IsWithin, OptionWithin};
ghost use Rattle.qs_ports.specs.Shelf.{renewed, extended};
ghost use Rattle.qs_ports.specs.ShelfProps.{is_current_prop};
ghost use Rattle.qs_ports.specs.StoreView.{file_room};

use crate::memory::cells::{Cells, FILE_ROOM};
use crate::memory::span::Span;
use qs_base::NoMemory;
use std::alloc::Global;

/// Files in memory. To create a file or to append to it takes no memory: the files lie, one after
/// the other, in room that was reserved before. Where that is too small, the shelf is `full`, and
/// doesn't tell its files from then on. The file that is open for writing is the newest one, and
/// the one that is open for reading the newest of its name.
#[derive(Drop)]
pub struct Shelf {
    pub cells: Cells,
    pub spare: usize,
    pub full: bool,
    pub reading: Option<Span>,
    pub place: usize,
    pub writing: bool,
    ghost room: { spare ≤ room_of cells },
    ghost reads: { IsCurrent reading cells } by { is_current_prop reading cells },
    ghost writes: { IsTrue writing → full ≡ false → HasFiles cells },
}

impl Shelf {
    ghost use Rattle.std.specs.Prelude.{None};
    ghost use Rattle.qs_ports.specs.Memory.{
      IsNewStore,
      files_in,
      with_store_room,
      read_count,
      FillsBuffer,
    };
    ghost use Rattle.qs_ports.specs.ShelfView.{
      shelf_view,
      shelf_files,
      with_found,
      with_more_read,
      with_reading,
      AsStores,
      Becomes,
      TellsOn,
      Created,
      Appended,
    };

    /// These files, without room for more. Of two files of one name the later one counts.
    pub fn new(alloc: Global, entries: &[(String, Vec<u8>)]) -> Result<Shelf, NoMemory>
        ensures { IfOk result (λ s. IsNewStore (shelf_view s 0 0) (files_in entries.now) 0) }
    {
        let mut cells = Cells::new(alloc);
        for (name, content) in entries {
            cells.start(name.as_bytes())?;
            cells.extend(content)?;
        }
        Ok(Shelf {
            cells,
            spare: 0,
            full: false,
            reading: None,
            place: 0,
            writing: false,
        })
    }

    /// Has room for at least so many bytes more.
    pub fn reserve(&mut self, bytes: usize) -> Result<(), NoMemory>
        ensures reserved { OnOk result (Becomes self.old self.new (λ v. with_store_room v bytes)) }
        ensures refused { OnErr result (Becomes self.old self.new (λ v. v)) }
    {
        if self.spare < bytes {
            self.cells.reserve(bytes)?;
            self.spare = bytes;
        }
        Ok(())
    }

    /// Makes the file the one for reading, at its start; whether it is there.
    pub fn open(&mut self, name: &[u8]) -> bool
        ensures there { result ≡ is_some (shelf_files self.old name.now) }
        ensures opened { Becomes self.old self.new (with_found result name.now) }
    {
        self.place = 0;
        self.reading = self.cells.find(name);
        self.reading.is_some()
    }

    /// Makes no file the one for reading.
    pub fn close_reading(&mut self)
        ensures { Becomes self.old self.new (with_reading None) }
    {
        self.place = 0;
        self.reading = None;
    }

    /// Makes no file the one for writing.
    pub fn close_writing(&mut self)
        ensures { Becomes self.old self.new (λ v. record v { writing = None }) }
    {
        self.writing = false;
    }

    /// Makes the file empty and the one for writing.
    pub fn create(&mut self, name: &[u8])
        ensures writes { IsTrue self.new.writing }
        ensures tells { TellsOn self.old self.new (length name.now + file_room) }
        ensures created { AsStores self.old self.new (λ v w. Created v w name.now) }
    {
        self.writing = true;
        if self.full || name.len() + FILE_ROOM > self.spare {
            self.full = true;
            return;
        }
        self.spare -= name.len() + FILE_ROOM;
        let file = self.cells.start(name).unwrap();
        self.reading = renewed(&self.cells, self.reading, file);
    }

    /// Appends the piece to the file for writing.
    pub fn append(&mut self, piece: &[u8])
        requires { IsTrue self.old.writing }
        ensures tells { TellsOn self.old self.new (length piece.now) }
        ensures appended { AsStores self.old self.new (λ v w. Appended v w piece.now) }
    {
        if self.full || piece.len() > self.spare {
            self.full = true;
            return;
        }
        self.spare -= piece.len();
        let end = self.cells.bytes.len();
        self.cells.extend(piece).unwrap();
        self.reading = extended(self.reading, end, self.cells.bytes.len());
    }

    /// The bytes of a file.
    pub fn file(&self, name: &[u8]) -> Option<&[u8]>
        ensures { option_copied result ≡ shelf_files self.now name.now }
    {
        let file = self.cells.find(name)?;
        Some(self.cells.content(file))
    }

    /// Reads the next bytes of the file for reading, at most so many.
    pub fn read(&mut self, into: &mut [u8], most: usize) -> usize
        requires { IsSome self.old.reading }
        ensures count { result ≡ read_count (shelf_view self.old 0 0) most (length into.old) }
        ensures bytes { FillsBuffer (shelf_view self.old 0 0) into.old into.new result }
        ensures place { Becomes self.old self.new (with_more_read result) }
    {
        let Some(file) = self.reading else {
            unreachable!();
        };
        let content = self.cells.content(file);
        let count = copy_from(content, self.place, into, most);
        self.place += count;
        count
    }
}

// Copies the bytes from this place on, at most so many.
fn copy_from(content: &[u8], place: usize, into: &mut [u8], most: usize) -> usize
    ensures count { result ≡ min (min most (length into.old)) (length content.now - place) }
    ensures bytes { into.new ≡ take result (drop place content.now) ++ drop result into.old }
{
    let rest = &content[place.min(content.len())..];
    let count = most.min(into.len()).min(rest.len());
    into[..count].copy_from_slice(&rest[..count]);
    count
}

// The file for reading once one was created: that one, where it has the same name.
fn renewed(cells: &Cells, reading: Option<Span>, created: Span) -> Option<Span>
    requires reading { OptionWithin reading (length cells.now.bytes.items) }
    requires created { IsWithin created (length cells.now.bytes.items) }
    ensures { result ≡ renewed cells.now.bytes.items reading created }
{
    let file = reading?;
    if cells.name(file) == cells.name(created) {
        return Some(created);
    }
    Some(file)
}

// The file for reading once the one that ended at `end` grew, so that it ends at `to`.
fn extended(reading: Option<Span>, end: usize, to: usize) -> Option<Span>
    ensures { result ≡ extended reading end to }
{
    let mut file = reading?;
    if file.end == end {
        file.end = to;
    }
    Some(file)
}
