// Files as a whole.
ghost use Rattle.std.specs.Prelude.{◌<◌, ◌≡◌, ◌+◌, ◌++◌, ◌^◌, IsSome, OnOk};
ghost use Rattle.qs_ports.specs.Whole.{ReadsWhole, ReadsInto, TakesUpTo, WritesWhole};

use crate::{Store, StoreFault};
use qs_base::NoMemory;
use std::alloc::Global;
use thiserror::Error;

/// Why a file wasn't read.
#[derive(Clone, Copy, Debug, PartialEq, Eq, Error)]
pub enum ReadFault {
    /// There is no file of this name.
    #[error("no such file")]
    Missing,
    /// The store failed.
    #[error("the store failed")]
    Failed,
    /// No memory was found for the bytes.
    #[error("out of memory")]
    NoMemory,
}

impl From<StoreFault> for ReadFault {
    ghost use Rattle.qs_ports.specs.Whole.{read_fault_of};

    ghost from_gives = { λ fault read_fault. read_fault ≡ read_fault_of fault };

    fn from(fault: StoreFault) -> ReadFault {
        match fault {
            StoreFault::Missing => ReadFault::Missing,
            StoreFault::Failed => ReadFault::Failed,
        }
    }
}

impl From<NoMemory> for ReadFault {
    ghost use Rattle.qs_ports.specs.declared.whole.ReadFault.TheVariants.{NoMemory};

    ghost from_gives = { λ _ read_fault. read_fault ≡ NoMemory };

    fn from(_fault: NoMemory) -> ReadFault {
        ReadFault::NoMemory
    }
}

/// A file wasn't made, or not filled, since the store failed.
#[derive(Clone, Copy, Debug, Error)]
#[error("the store failed")]
pub struct WriteFault;

impl From<StoreFault> for WriteFault {
    fn from(_fault: StoreFault) -> WriteFault {
        WriteFault
    }
}

// The most bytes that one call of `read` asks for.
const CHUNK: usize = 4096;

// Adds a piece to the bytes.
fn add(bytes: &mut Vec<u8>, piece: &[u8]) -> Result<(), NoMemory>
    ensures { OnOk result (bytes.new.items ≡ bytes.old.items ++ piece.now) }
{
    Ok(bytes.extend_from_slice(piece)?)
}

// Reads once, and adds what came to the bytes.
fn read_more<S: Store>(store: &mut S, bytes: &mut Vec<u8>, most: usize) -> Result<usize, ReadFault>
    requires opened { IsSome (S.view store.old).reading }
    requires some { 0 < most }
    ensures { ReadsInto (S.view store.old) (S.view store.new) bytes.old bytes.new most result }
{
    let mut chunk = [0u8; CHUNK];
    let room = most.min(CHUNK);
    let count = store.read(&mut chunk[..room])?;
    add(bytes, &chunk[..count])?;
    Ok(count)
}

/// The bytes of a file, to its end or up to one past the limit, so that a file that is longer than
/// the limit shows; no more are taken from it. `Missing` and `Failed` come only where the store
/// counted them in this call.
pub fn read_whole<S: Store>(
    alloc: Global,
    store: &mut S,
    name: &str,
    limit: usize,
) -> Result<Vec<u8>, ReadFault>
    requires { limit + 1 < 2 ^ 64 }
    ensures reads { ReadsWhole (S.view store.old) (S.view store.new) name.now limit result }
    ensures stops { TakesUpTo (S.view store.new) limit }
{
    store.open(name)?;
    let mut bytes = Vec::new(alloc);
    while bytes.len() <= limit {
        let most = limit + 1 - bytes.len();
        if read_more(store, &mut bytes, most)? == 0 {
            return Ok(bytes);
        }
    }
    Ok(bytes)
}

/// Makes a file of these bytes. A fault comes only where the store counted a failure in this call;
/// the file wasn't made then, or holds some first bytes of them.
pub fn write_whole<S: Store>(store: &mut S, name: &str, bytes: &[u8]) -> Result<(), WriteFault>
    ensures { WritesWhole (S.view store.old) (S.view store.new) name.now bytes.now result }
{
    store.create(name)?;
    let mut done = 0;
    while done < bytes.len() {
        done += store.write(&bytes[done..])?;
    }
    Ok(())
}
