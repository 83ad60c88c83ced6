// The files of the system as a store.
ghost use Rattle.std.specs.Prelude.{◌≡◌, ◌↔◌};
ghost use Rattle.std.specs.IoError.{error_kind};

use crate::system::again::{read_again, write_some};
use crate::{Store, StoreFault};
use std::fs::File;
use std::io::{Error, ErrorKind};
use std::rt::Files;

/// The files of the system, by their paths. It tells nothing of what they hold. `Missing` is the
/// system's answer that it doesn't find the file to be read; each other error of the system is
/// `Failed`, and so is a write of nothing.
#[derive(Drop)]
pub struct DirStore<R: Files + Drop> {
    system: R,
    reading: Option<R::File>,
    writing: Option<R::File>,
    faults: u64,
    misses: u64,
}

impl<R: Files + Drop> DirStore<R> {
    ghost use Rattle.std.specs.Prelude.{None};
    ghost use Rattle.qs_ports.specs.System.{silent_store, dir_store_of as view_of};

    /// The files that this system has, with nothing open.
    pub fn new(system: R) -> DirStore<R>
        ensures { view_of result ≡ silent_store None None 0 0 }
    {
        DirStore {
            system,
            reading: None,
            writing: None,
            faults: 0,
            misses: 0,
        }
    }
}

impl<R: Files + Drop> Store for DirStore<R> {
    ghost use Rattle.std.specs.Prelude.{IsSome};
    ghost use Rattle.qs_ports.specs.StoreView.{Opens, Reads, Creates, Writes};
    ghost use Rattle.qs_ports.specs.System.{
      dir_store_of as view_of,
      TakesFromFile,
      AddsToFile,
      after_silent_open,
      after_silent_create,
      after_silent_move,
    };

    ghost view = { view_of };

    fn open(&mut self, name: &str) -> Result<(), StoreFault>
        ensures opens { Opens (view_of self.old) (view_of self.new) name.now result }
        ensures changes { view_of self.new ≡ after_silent_open (view_of self.old) result }
        ensures writing_stays { self.new.writing ≡ self.old.writing }
    {
        self.reading = None;
        match File::open(&self.system, name) {
            Ok(file) => {
                self.reading = Some(file);
                Ok(())
            }
            Err(error) => match fault_of(&error) {
                StoreFault::Missing => {
                    self.misses = self.misses.saturating_add(1);
                    Err(StoreFault::Missing)
                }
                StoreFault::Failed => {
                    self.faults = self.faults.saturating_add(1);
                    Err(StoreFault::Failed)
                }
            },
        }
    }

    fn read(&mut self, into: &mut [u8]) -> Result<usize, StoreFault>
        requires { IsSome (view_of self.old).reading }
        ensures reads { Reads (view_of self.old) (view_of self.new) into.old into.new result }
        ensures changes { view_of self.new ≡ after_silent_move (view_of self.old) result }
        ensures bytes { TakesFromFile R.File.remaining self.old self.new into.new result }
        ensures writing_stays { self.new.writing ≡ self.old.writing }
    {
        let Some(file) = &mut self.reading else {
            unreachable!();
        };
        match read_again(file, into) {
            Ok(count) => Ok(count),
            Err(_) => {
                self.faults = self.faults.saturating_add(1);
                Err(StoreFault::Failed)
            }
        }
    }

    fn create(&mut self, name: &str) -> Result<(), StoreFault>
        ensures creates { Creates (view_of self.old) (view_of self.new) name.now result }
        ensures changes { view_of self.new ≡ after_silent_create (view_of self.old) result }
        ensures reading_stays { self.new.reading ≡ self.old.reading }
    {
        self.writing = None;
        match File::create(&self.system, name) {
            Ok(file) => {
                self.writing = Some(file);
                Ok(())
            }
            Err(_) => {
                self.faults = self.faults.saturating_add(1);
                Err(StoreFault::Failed)
            }
        }
    }

    fn write(&mut self, piece: &[u8]) -> Result<usize, StoreFault>
        requires { IsSome (view_of self.old).writing }
        ensures writes { Writes (view_of self.old) (view_of self.new) piece.now result }
        ensures changes { view_of self.new ≡ after_silent_move (view_of self.old) result }
        ensures bytes { AddsToFile R.File.contents self.old self.new piece.now result }
        ensures reading_stays { self.new.reading ≡ self.old.reading }
    {
        let Some(file) = &mut self.writing else {
            unreachable!();
        };
        match write_some(file, piece) {
            Ok(count) => Ok(count),
            Err(_) => {
                self.faults = self.faults.saturating_add(1);
                Err(StoreFault::Failed)
            }
        }
    }
}

// Why a file wasn't opened for reading: it is missing exactly where the system says that it isn't
// found.
fn fault_of(error: &Error) -> StoreFault
    ensures { (result ≡ StoreFault.Missing) ↔ (error_kind error.now ≡ ErrorKind.NotFound) }
{
    if error.kind() == ErrorKind::NotFound {
        StoreFault::Missing
    } else {
        StoreFault::Failed
    }
}
