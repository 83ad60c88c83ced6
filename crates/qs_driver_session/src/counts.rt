// The end of a command that counts entries.
ghost use Rattle.qs_driver_session.specs.Counts.{due_to};
ghost use Rattle.qs_driver_session.specs.Due.{IsWrittenOn};

use crate::Status;
use crate::due::{refuse, status_after};
use crate::names::FileNames;
use qs_driver_steps::Streams;
use qs_ports::Sink;
use qs_report::{Count, put_count};

/// Puts the count, or the line of the fault.
pub fn report_count<O: Sink, L: Sink>(
    work: Result<Count, Status>,
    names: &FileNames<'_>,
    streams: Streams<'_, O, L>,
) -> Status
    ensures { IsWrittenOn O.view L.view streams.entry streams.exit (due_to names.now work) result }
{
    match work {
        Ok(count) => status_after(put_count(streams.0, count), Status::Done),
        Err(status) => refuse(streams.1, names, status),
    }
}
