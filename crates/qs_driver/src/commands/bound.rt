// `bound`: what each function of a source costs, and the bound of main at some arguments.
ghost use Rattle.std.specs.Prelude.{◌≡◌};
ghost use Rattle.qs_ports.specs.SinkView.{PutsOn};
ghost use Rattle.qs_driver_session.specs.Due.{IsWrittenOn};
ghost use Rattle.qs_driver_session.specs.Names.{names_in};
ghost use Rattle.qs_driver_session.specs.Task.{AnswersOn};
ghost use Rattle.qs_driver.specs.Certified as meant;
ghost use Rattle.qs_driver.specs.commands.Bound.{bounded_lines, due_to, names_of, to_do, to_make};
ghost use Rattle.qs_driver.specs.commands.Bound.{words_in};

use crate::certified::CertifyOrder;
use crate::made::{Made, make};
use qs_assert::Amount;
use qs_driver_session::{
    Devices, FileNames, Status, Streams, nameless, put_costs, refuse, shown_of, status_after,
};
use qs_image::Image;
use qs_ports::{Sink, SinkFault, Store};
use qs_report::put_bound;
use std::alloc::Global;

/// The words of `bound`.
#[derive(Clone, Copy)]
pub struct BoundOrder<'a> {
    pub source: &'a str,
    pub proof: Option<&'a str>,
    pub args: &'a [i64],
}

fn names_of<'a>(order: &BoundOrder<'a>) -> FileNames<'a>
    ensures { names_in result ≡ names_of (words_in order.now) }
{
    let none = nameless();
    FileNames {
        source: order.source,
        derivation: order.proof.unwrap_or(""),
        ..none
    }
}

// The words that name what is certified.
fn inputs_of<'a>(order: &BoundOrder<'a>) -> CertifyOrder<'a>
    ensures { meant.words_in result ≡ (to_make (words_in order.now)).inputs }
{
    CertifyOrder {
        source: order.source,
        proof: order.proof,
    }
}

// Puts the cost of each function, and then the bound.
fn put_bounded<O: Sink>(out: &mut O, image: &Image, bound: Amount) -> Result<(), SinkFault>
    ensures { PutsOn O.view out.old out.new (bounded_lines image.now.functions bound) result }
{
    put_costs(out, &image.functions)?;
    put_bound(out, shown_of(bound))
}

// Puts the costs and the bound, or the line of the fault.
fn report<O: Sink, L: Sink>(
    work: Result<Made, Status>,
    order: &BoundOrder<'_>,
    streams: Streams<'_, O, L>,
) -> Status
    ensures { IsWrittenOn O.view L.view streams.entry streams.exit (due_to order.now work) result }
{
    match work {
        Ok(made) => status_after(
            put_bounded(streams.0, &made.image, made.bound),
            Status::Done,
        ),
        Err(status) => refuse(streams.1, &names_of(order), status),
    }
}

/// Puts what each function of the source costs, and the bound of main at the arguments.
pub fn bound<S: Store, O: Sink, L: Sink>(
    alloc: Global,
    order: &BoundOrder<'_>,
    devices: Devices<'_, S, O, L>,
) -> Status
    ensures { AnswersOn S.view O.view L.view devices.entry devices.exit (to_do order.now) result }
{
    let Devices { store, out, log } = devices;
    let work = make(alloc, store, &inputs_of(order), order.args);
    report(work, order, (out, log))
}
