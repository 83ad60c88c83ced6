// `build`: from the source and its proof file in the store to the image in the store.
ghost use Rattle.std.specs.Prelude.{◌≡◌, ◌≢◌, Some, false, true};
ghost use Rattle.qs_driver_session.specs.Due.{IsWrittenOn};
ghost use Rattle.qs_driver_session.specs.Names.{names_in};
ghost use Rattle.qs_driver_session.specs.Task.{AnswersOn};
ghost use Rattle.qs_driver.specs.Certified as meant;
ghost use Rattle.qs_driver.specs.commands.Build.{due_to, inputs, names_of, to_do, words_in, Builds};
ghost use Rattle.qs_driver.specs.commands.Build.{NamesDiffer, NamesOneTwice};

use crate::certified::{CertifyOrder, read_certified};
use qs_compile::compile_core;
use qs_driver_session::{
    Devices, FileNames, Status, Streams, WordsFault, nameless, put_costs, refuse, status_after,
};
use qs_image::{Image, write};
use qs_ports::{Sink, Store, write_whole};
use std::alloc::Global;

/// The words of `build`.
#[derive(Clone, Copy)]
pub struct BuildOrder<'a> {
    pub source: &'a str,
    pub proof: Option<&'a str>,
    pub out: &'a str,
}

fn names_of<'a>(order: &BuildOrder<'a>) -> FileNames<'a>
    ensures { names_in result ≡ names_of (words_in order.now) }
{
    let none = nameless();
    FileNames {
        source: order.source,
        derivation: order.proof.unwrap_or(""),
        output: order.out,
        ..none
    }
}

// The words that name what is certified.
fn inputs_of<'a>(order: &BuildOrder<'a>) -> CertifyOrder<'a>
    ensures { meant.words_in result ≡ inputs (words_in order.now) }
{
    CertifyOrder {
        source: order.source,
        proof: order.proof,
    }
}

// Whether the file that gets the image is the proof file.
fn overwrites_proof(order: &BuildOrder<'_>) -> bool
    ensures twice { result ≡ true → NamesOneTwice (words_in order.now) }
    ensures differ { result ≡ false → (words_in order.now).proof ≢ Some (words_in order.now).out }
{
    match order.proof {
        Some(proof) => proof == order.out,
        None => false,
    }
}

// Whether the file that gets the image is one of those that are read.
#[tactic(auto, using(crate::proofs::rooms::Build::names_differ))]
fn names_one_twice(order: &BuildOrder<'_>) -> bool
    ensures twice { result ≡ true → NamesOneTwice (words_in order.now) }
    ensures differ { result ≡ false → NamesDiffer (words_in order.now) }
{
    order.source == order.out || overwrites_proof(order)
}

// Writes the image of the source into the out file, and gives it back.
fn build_file<S: Store>(
    alloc: Global,
    order: &BuildOrder<'_>,
    store: &mut S,
) -> Result<Image, Status>
    ensures { Builds (words_in order.now) (S.view store.old) (S.view store.new) result }
{
    if names_one_twice(order) {
        return Err(Status::Words(WordsFault::SameName));
    }
    let certified = read_certified(alloc, store, &inputs_of(order))?;
    let image = compile_core(alloc, &certified.core)?;
    let bytes = write(alloc, &image)?;
    write_whole(store, order.out, &bytes)?;
    Ok(image)
}

// Puts the cost of each function of the image, or the line of the fault.
fn report<O: Sink, L: Sink>(
    work: Result<Image, Status>,
    order: &BuildOrder<'_>,
    streams: Streams<'_, O, L>,
) -> Status
    ensures { IsWrittenOn O.view L.view streams.entry streams.exit (due_to order.now work) result }
{
    match work {
        Ok(image) => status_after(put_costs(streams.0, &image.functions), Status::Done),
        Err(status) => refuse(streams.1, &names_of(order), status),
    }
}

/// Builds the image, and puts the cost of each of its functions.
pub fn build<S: Store, O: Sink, L: Sink>(
    alloc: Global,
    order: &BuildOrder<'_>,
    devices: Devices<'_, S, O, L>,
) -> Status
    ensures { AnswersOn S.view O.view L.view devices.entry devices.exit (to_do order.now) result }
{
    let Devices { store, out, log } = devices;
    report(build_file(alloc, order, store), order, (out, log))
}
