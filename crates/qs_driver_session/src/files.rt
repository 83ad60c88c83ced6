// Reads a file that a command names.
ghost use Rattle.std.specs.Prelude.{◌<◌, ◌^◌};
ghost use Rattle.qs_driver_steps.specs.Reading.{items_of};
ghost use Rattle.qs_driver_steps.specs.Runs.{Takes};
ghost use Rattle.qs_driver_session.specs.Files.{ReadsFile};
ghost use Rattle.qs_driver_session.specs.Shared.{reading_file};

use crate::{FileKind, SourceFault, Status};
use qs_ports::{ReadFault, Store, read_whole};
use std::alloc::Global;

/// The bytes of the file, or the status at which it can't be read: missing, failed, too long or no
/// memory.
pub fn read_file<S: Store>(
    alloc: Global,
    store: &mut S,
    name: &str,
    kind: FileKind,
    limit: usize,
) -> Result<Vec<u8>, Status>
    requires { limit < 2 ^ 32 }
    ensures reads { ReadsFile (S.view store.old) (S.view store.new) name.now kind limit result }
    ensures takes { Takes (reading_file kind limit name.now) items_of (S.view store.old) (S.view store.new) result }
{
    match read_whole(alloc, store, name, limit) {
        Ok(content) => {
            if content.len() > limit {
                Err(Status::Source(SourceFault::TooLong(kind)))
            } else {
                Ok(content)
            }
        }
        Err(ReadFault::Missing) => Err(Status::Missing(kind)),
        Err(ReadFault::Failed) => Err(Status::StoreFailed(kind)),
        Err(ReadFault::NoMemory) => Err(Status::NoMemory),
    }
}
