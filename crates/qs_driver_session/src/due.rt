// The end of a call: what is due is put, and the status tells how that went.
ghost use Rattle.std.specs.Prelude.{◌≡◌};
ghost use Rattle.qs_driver_session.specs.Due.{status_after, EndsDone, PutsRefusal};
ghost use Rattle.qs_driver_session.specs.Names.{names_in};

use crate::Status;
use crate::faults::put_status;
use crate::names::FileNames;
use qs_ports::{Sink, SinkFault};

/// The status that is due, unless a sink failed.
pub fn status_after(written: Result<(), SinkFault>, due: Status) -> Status
    ensures { result ≡ status_after written due }
{
    match written {
        Ok(()) => due,
        Err(_) => Status::SinkFailed,
    }
}

/// Puts the line of a fault.
pub fn refuse<L: Sink>(log: &mut L, names: &FileNames<'_>, status: Status) -> Status
    ensures { PutsRefusal L.view log.old log.new (names_in names.now) status result }
{
    let written = put_status(log, names, &status);
    status_after(written, status)
}

/// Puts the line of the fault, and nothing where all was done.
pub fn report_done<L: Sink>(work: Result<(), Status>, names: &FileNames<'_>, log: &mut L) -> Status
    ensures { EndsDone (names_in names.now) work (L.view log.old) (L.view log.new) result }
{
    match work {
        Ok(()) => Status::Done,
        Err(status) => refuse(log, names, status),
    }
}
