// `outline`: from the source in the store to the outline of its core on standard output.
ghost use Rattle.std.specs.Prelude.{◌≡◌};
ghost use Rattle.qs_driver_session.specs.Due.{IsWrittenOn};
ghost use Rattle.qs_driver_session.specs.Names.{names_in};
ghost use Rattle.qs_driver_steps.specs.Promises.{AnswersOn};
ghost use Rattle.qs_driver.specs.commands.Outline.{due_to, names_of, to_do, words_in, Outlines};

use qs_core::print_outline;
use qs_driver_session::{
    Devices, FileNames, Status, Streams, nameless, read_unit, refuse, status_after,
};
use qs_elaborate::elaborate;
use qs_ports::{Sink, Store, put_all};
use std::alloc::Global;

/// The words of `outline`.
#[derive(Clone, Copy)]
pub struct OutlineOrder<'a> {
    pub source: &'a str,
}

fn names_of<'a>(order: &OutlineOrder<'a>) -> FileNames<'a>
    ensures { names_in result ≡ names_of (words_in order.now) }
{
    let none = nameless();
    FileNames {
        source: order.source,
        ..none
    }
}

// The text of the outline of the source's core.
fn outline_text<S: Store>(
    alloc: Global,
    order: &OutlineOrder<'_>,
    store: &mut S,
) -> Result<Vec<u8>, Status>
    ensures { Outlines (words_in order.now) (S.view store.old) (S.view store.new) result }
{
    let typed = read_unit(alloc, store, order.source)?;
    let core = elaborate(alloc, &typed)?;
    let text = print_outline(alloc, &core)?;
    Ok(text)
}

// Puts the outline, or the line of the fault.
fn report<O: Sink, L: Sink>(
    work: Result<Vec<u8>, Status>,
    order: &OutlineOrder<'_>,
    streams: Streams<'_, O, L>,
) -> Status
    ensures { IsWrittenOn O.view L.view streams.entry streams.exit (due_to order.now work) result }
{
    match work {
        Ok(text) => status_after(put_all(streams.0, &text), Status::Done),
        Err(status) => refuse(streams.1, &names_of(order), status),
    }
}

/// Puts the outline of the source's core.
pub fn outline<S: Store, O: Sink, L: Sink>(
    alloc: Global,
    order: &OutlineOrder<'_>,
    devices: Devices<'_, S, O, L>,
) -> Status
    ensures { AnswersOn S.view O.view L.view devices.entry devices.exit (to_do order.now) result }
{
    let Devices { store, out, log } = devices;
    report(outline_text(alloc, order, store), order, (out, log))
}
