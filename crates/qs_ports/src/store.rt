// Stores of files.
ghost use Rattle.std.specs.Prelude.{IsSome};
ghost use Rattle.qs_ports.specs.StoreView.{StoreView, Opens, Reads, Creates, Writes};

use thiserror::Error;

/// Why a call on a store didn't do its work.
#[derive(Clone, Copy, Debug, Error)]
pub enum StoreFault {
    /// There is no file of this name. It comes from `open` alone.
    #[error("no such file")]
    Missing,
    /// The store failed.
    #[error("the store failed")]
    Failed,
}

/// What holds files by their names. One file may be open for reading, at a place in it, and one for
/// writing.
pub trait Store {
    ghost view: { Self → StoreView };

    /// Makes the file the one for reading, at its start. `Missing` comes only where the store
    /// counted a missing file in this call, and `Failed` only where it counted a failure; both
    /// leave no file open for reading.
    fn open(&mut self, name: &str) -> Result<(), StoreFault>
        ensures { Opens (view self.old) (view self.new) name.now result };

    /// Puts the next bytes of the file that is open for reading into the buffer, and answers how
    /// many: 0 into a buffer that isn't empty exactly at the file's end or past it. `Failed` takes
    /// none of them.
    fn read(&mut self, into: &mut [u8]) -> Result<usize, StoreFault>
        requires { IsSome (view self.old).reading }
        ensures { Reads (view self.old) (view self.new) into.old into.new result };

    /// Makes the file empty and the one for writing. `Failed` leaves no file open for writing.
    fn create(&mut self, name: &str) -> Result<(), StoreFault>
        ensures { Creates (view self.old) (view self.new) name.now result };

    /// Appends the first bytes of the piece to the file that is open for writing, at least one
    /// where the piece isn't empty, and answers how many. After `Failed` nothing was appended,
    /// where the store tells its files.
    fn write(&mut self, piece: &[u8]) -> Result<usize, StoreFault>
        requires { IsSome (view self.old).writing }
        ensures { Writes (view self.old) (view self.new) piece.now result };
}
