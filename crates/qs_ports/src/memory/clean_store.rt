// A store in memory that never fails.
use crate::memory::shelf::Shelf;
use crate::{Store, StoreFault};
use qs_base::NoMemory;
use std::alloc::Global;

/// A store in memory that never fails. It tells its files while the room that was reserved is
/// enough for what is created and written.
#[derive(Drop)]
pub struct CleanStore {
    shelf: Shelf,
    misses: u64,
}

impl CleanStore {
    ghost use Rattle.std.specs.Prelude.{IfOk, OnOk, OnErr, ◌≡◌, option_copied};
    ghost use Rattle.qs_ports.specs.Memory.{IsNewStore, files_in, with_store_room};
    ghost use Rattle.qs_ports.specs.CleanStore.{clean_store_of as view_of};

    /// A store with these files, of which the later one of a name counts, and without room for
    /// more.
    pub fn new(alloc: Global, files: Vec<(String, Vec<u8>)>) -> Result<CleanStore, NoMemory>
        ensures { IfOk result (λ s. IsNewStore (view_of s) (files_in files.items) 0) }
    {
        Ok(CleanStore {
            shelf: Shelf::new(alloc, &files)?,
            misses: 0,
        })
    }

    /// Has room for at least so many bytes beside the files that are there; a file that is created
    /// takes the bytes of its name and `FILE_ROOM` more. After `NoMemory` the room is as before.
    pub fn reserve(&mut self, bytes: usize) -> Result<(), NoMemory>
        ensures ok { OnOk result (view_of self.new ≡ with_store_room (view_of self.old) bytes) }
        ensures err { OnErr result (view_of self.new ≡ view_of self.old) }
    {
        self.shelf.reserve(bytes)
    }

    /// The bytes of the file of this name, if there is one.
    pub fn file(&self, name: &str) -> Option<&[u8]>
        ensures { option_copied result ≡ (view_of self.now).files name.now }
    {
        self.shelf.file(name.as_bytes())
    }
}

impl Store for CleanStore {
    ghost use Rattle.std.specs.Prelude.{IsSome, IfOk, ◌≡◌, ◌+◌, length};
    ghost use Rattle.qs_ports.specs.StoreView.{Opens, Reads, Creates, Writes, file_room};
    ghost use Rattle.qs_ports.specs.Memory.{
      FillsBuffer,
      open_answer,
      after_open,
      after_read,
    };
    ghost use Rattle.qs_ports.specs.CleanStore.{clean_store_of as view_of, TellsOn, readable};

    ghost view = { view_of };

    fn open(&mut self, name: &str) -> Result<(), StoreFault>
        ensures opens { Opens (view_of self.old) (view_of self.new) name.now result }
        ensures answers { result ≡ open_answer ((view_of self.old).files name.now) }
        ensures changes { view_of self.new ≡ after_open (view_of self.old) name.now result }
    {
        if self.shelf.open(name.as_bytes()) {
            return Ok(());
        }
        self.misses = self.misses.saturating_add(1);
        Err(StoreFault::Missing)
    }

    fn read(&mut self, into: &mut [u8]) -> Result<usize, StoreFault>
        requires { IsSome (view_of self.old).reading }
        ensures reads { Reads (view_of self.old) (view_of self.new) into.old into.new result }
        ensures answers { result ≡ Ok (readable self.old into.old) }
        ensures fills { IfOk result (FillsBuffer (view_of self.old) into.old into.new) }
        ensures changes { view_of self.new ≡ after_read (view_of self.old) result }
    {
        let most = into.len();
        Ok(self.shelf.read(into, most))
    }

    fn create(&mut self, name: &str) -> Result<(), StoreFault>
        ensures creates { Creates (view_of self.old) (view_of self.new) name.now result }
        ensures answers { result ≡ Ok tt }
        ensures tells { TellsOn self.old self.new (length name.now + file_room) }
    {
        self.shelf.create(name.as_bytes());
        Ok(())
    }

    fn write(&mut self, piece: &[u8]) -> Result<usize, StoreFault>
        requires { IsSome (view_of self.old).writing }
        ensures writes { Writes (view_of self.old) (view_of self.new) piece.now result }
        ensures answers { result ≡ Ok (length piece.now) }
        ensures tells { TellsOn self.old self.new (length piece.now) }
    {
        self.shelf.append(piece);
        Ok(piece.len())
    }
}
