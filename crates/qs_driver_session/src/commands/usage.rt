// Words that mean no command.
ghost use Rattle.qs_driver_session.specs.commands.Usage.{none};
ghost use Rattle.qs_driver_steps.specs.Promises.{AnswersOn};

use crate::due::refuse;
use crate::names::nameless;
use crate::{Status, WordsFault};
use qs_driver_steps::Devices;
use qs_ports::{Sink, Store};

/// Refuses the words.
pub fn usage<S: Store, O: Sink, L: Sink>(devices: Devices<'_, S, O, L>) -> Status
    ensures { AnswersOn S.view O.view L.view devices.entry devices.exit none result }
{
    let Devices {
        store: _,
        out: _,
        log,
    } = devices;
    refuse(log, &nameless(), Status::Words(WordsFault::Usage))
}
