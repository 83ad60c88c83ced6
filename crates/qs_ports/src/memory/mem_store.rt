// A store in memory that fails at listed calls.
ghost use Rattle.std.specs.Prelude.{◌≤◌};

use crate::memory::plan::{Plan, StoreCall};
use crate::memory::shelf::Shelf;
use crate::{Store, StoreFault};
use qs_base::NoMemory;
use std::alloc::Global;

/// A store in memory that fails exactly at listed calls, and moves at most a chunk of bytes at each
/// other call of `read` and `write`. It tells its files while its room is enough for what is
/// created and written; a small room is no failure.
#[derive(Drop)]
pub struct MemStore {
    shelf: Shelf,
    chunk: usize,
    plan: Plan,
    faults: u64,
    misses: u64,
    ghost some: { 1 ≤ chunk },
}

impl MemStore {
    ghost use Rattle.std.specs.Prelude.{IfOk, ◌≡◌, option_copied};
    ghost use Rattle.qs_ports.specs.Memory.{IsNewStore, files_in};
    ghost use Rattle.qs_ports.specs.MemStore.{mem_store_of as view_of, IsPlanned};

    /// A store with these files, of which the later one of a name counts, and
    /// with `room` bytes for what is created and written; a file that is created
    /// takes the bytes of its name and `FILE_ROOM` more. A call moves at most
    /// `chunk` bytes, 1 or more. The calls in `failing` fail: each pair is a
    /// kind of call and the number of the call among those of its kind, from 0.
    pub fn new(
        alloc: Global,
        files: Vec<(String, Vec<u8>)>,
        chunk: usize,
        failing: Vec<(StoreCall, u64)>,
        room: usize,
    ) -> Result<MemStore, NoMemory>
        requires { 1 ≤ chunk }
        ensures fresh { IfOk result (λ s. IsNewStore (view_of s) (files_in files.items) room) }
        ensures planned { IfOk result (λ s. IsPlanned s chunk failing.items) }
    {
        let mut shelf = Shelf::new(alloc, &files)?;
        shelf.reserve(room)?;
        Ok(MemStore {
            shelf,
            chunk,
            plan: Plan::new(failing),
            faults: 0,
            misses: 0,
        })
    }

    /// The bytes of the file of this name, if there is one.
    pub fn file(&self, name: &str) -> Option<&[u8]>
        ensures { option_copied result ≡ (view_of self.now).files name.now }
    {
        self.shelf.file(name.as_bytes())
    }
}

impl Store for MemStore {
    ghost use Rattle.std.specs.Prelude.{IsSome, IfOk, OnOk, OnErr, ◌↔◌, ◌≡◌, ◌+◌, min, length};
    ghost use Rattle.qs_ports.specs.StoreView.{Opens, Reads, Creates, Writes, file_room};
    ghost use Rattle.qs_ports.specs.Memory.{
      FillsBuffer,
      after_open,
      after_read,
      after_failed_create,
      failed_store,
    };
    ghost use Rattle.qs_ports.specs.MemStore.{
      mem_store_of as view_of,
      chunk_of,
      readable,
      IsListed,
      CountsCall,
      TellsOn,
    };

    ghost view = { view_of };

    fn open(&mut self, name: &str) -> Result<(), StoreFault>
        ensures opens { Opens (view_of self.old) (view_of self.new) name.now result }
        ensures fails { (result ≡ Err StoreFault.Failed) ↔ IsListed self.old StoreCall.Open }
        ensures counts { CountsCall self.old self.new StoreCall.Open }
        ensures changes { view_of self.new ≡ after_open (view_of self.old) name.now result }
    {
        if self.plan.count(StoreCall::Open) {
            self.shelf.close_reading();
            self.faults = self.faults.saturating_add(1);
            return Err(StoreFault::Failed);
        }
        if self.shelf.open(name.as_bytes()) {
            return Ok(());
        }
        self.misses = self.misses.saturating_add(1);
        Err(StoreFault::Missing)
    }

    fn read(&mut self, into: &mut [u8]) -> Result<usize, StoreFault>
        requires { IsSome (view_of self.old).reading }
        ensures reads { Reads (view_of self.old) (view_of self.new) into.old into.new result }
        ensures fails { (result ≡ Err StoreFault.Failed) ↔ IsListed self.old StoreCall.Read }
        ensures counts { CountsCall self.old self.new StoreCall.Read }
        ensures moves { IfOk result (λ n. n ≡ readable self.old into.old) }
        ensures fills { IfOk result (λ n. FillsBuffer (view_of self.old) into.old into.new n) }
        ensures leaves { OnErr result (into.new ≡ into.old) }
        ensures changes { view_of self.new ≡ after_read (view_of self.old) result }
    {
        if self.plan.count(StoreCall::Read) {
            self.faults = self.faults.saturating_add(1);
            return Err(StoreFault::Failed);
        }
        Ok(self.shelf.read(into, self.chunk))
    }

    fn create(&mut self, name: &str) -> Result<(), StoreFault>
        ensures creates { Creates (view_of self.old) (view_of self.new) name.now result }
        ensures fails { (result ≡ Err StoreFault.Failed) ↔ IsListed self.old StoreCall.Create }
        ensures counts { CountsCall self.old self.new StoreCall.Create }
        ensures tells { OnOk result (TellsOn self.old self.new (length name.now + file_room)) }
        ensures failed { OnErr result (view_of self.new ≡ after_failed_create (view_of self.old)) }
    {
        if self.plan.count(StoreCall::Create) {
            self.shelf.close_writing();
            self.faults = self.faults.saturating_add(1);
            return Err(StoreFault::Failed);
        }
        self.shelf.create(name.as_bytes());
        Ok(())
    }

    fn write(&mut self, piece: &[u8]) -> Result<usize, StoreFault>
        requires { IsSome (view_of self.old).writing }
        ensures writes { Writes (view_of self.old) (view_of self.new) piece.now result }
        ensures fails { (result ≡ Err StoreFault.Failed) ↔ IsListed self.old StoreCall.Write }
        ensures counts { CountsCall self.old self.new StoreCall.Write }
        ensures moves { IfOk result (λ n. n ≡ min (length piece.now) (chunk_of self.old)) }
        ensures tells { IfOk result (TellsOn self.old self.new) }
        ensures failed { OnErr result (view_of self.new ≡ failed_store (view_of self.old)) }
    {
        if self.plan.count(StoreCall::Write) {
            self.faults = self.faults.saturating_add(1);
            return Err(StoreFault::Failed);
        }
        let count = piece.len().min(self.chunk);
        self.shelf.append(&piece[..count]);
        Ok(count)
    }
}
