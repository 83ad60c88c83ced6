// `run`: an image on a stack of a given size.
ghost use Rattle.qs_driver_session.specs.Starting.{words_in};
ghost use Rattle.qs_driver_session.specs.commands.Run.{begun, to_do, IsFresh, Prepares};
ghost use Rattle.qs_driver_steps.specs.Promises.{AnswersOn, RunsOn};

use crate::due::refuse;
use crate::files::read_file;
use crate::limits::IMAGE_LIMIT;
use crate::starting::{Ready, RunOrder, finish, load_bytes, names_of, read_input};
use crate::{FileKind, Status};
use qs_driver_steps::{Devices, Streams};
use qs_ports::{Sink, Store};
use std::alloc::Global;

// Reads the image and the input, and loads the image.
fn prepare<S: Store>(alloc: Global, order: &RunOrder<'_>, store: &mut S) -> Result<Ready, Status>
    ensures { Prepares (words_in order.now) (S.view store.old) (S.view store.new) result }
{
    let bytes = read_file(alloc, store, order.image, FileKind::Image, IMAGE_LIMIT)?;
    let machine = load_bytes(alloc, &bytes, order)?;
    let input = read_input(alloc, order, store)?;
    Ok(Ready { machine, input })
}

// Runs what was prepared, or refuses it.
fn run_ready<O: Sink, L: Sink>(
    prepared: Result<Ready, Status>,
    order: &RunOrder<'_>,
    streams: Streams<'_, O, L>,
) -> Status
    requires { IsFresh prepared }
    ensures { RunsOn O.view L.view streams.entry streams.exit (begun order.now prepared) result }
{
    match prepared {
        Ok(ready) => {
            let mut ready = ready;
            let end = ready.machine.run(order.steps, &ready.input, streams.0);
            finish(end, order, streams.1)
        }
        Err(status) => refuse(streams.1, &names_of(order), status),
    }
}

/// Runs the image: the output of the machine goes to `out`, the line at its end to `log`.
pub fn run<S: Store, O: Sink, L: Sink>(
    alloc: Global,
    order: &RunOrder<'_>,
    devices: Devices<'_, S, O, L>,
) -> Status
    ensures { AnswersOn S.view O.view L.view devices.entry devices.exit (to_do order.now) result }
{
    let Devices { store, out, log } = devices;
    run_ready(prepare(alloc, order, store), order, (out, log))
}
