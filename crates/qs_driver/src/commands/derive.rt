// `derive`: a derivation for each function of a source without recursion, as a proof file.
ghost use Rattle.std.specs.Prelude.{◌≡◌};
ghost use Rattle.qs_driver_session.specs.Names.{names_in};
ghost use Rattle.qs_driver_session.specs.Task.{AnswersOn};
ghost use Rattle.qs_driver.specs.Certified as meant;
ghost use Rattle.qs_driver.specs.commands.Derive.{inputs, names_of, to_do, words_in, Derives};

use crate::certified::{CertifyOrder, read_certified};
use qs_driver_session::{Devices, FileNames, Status, WordsFault, nameless, report_count};
use qs_ports::{Sink, Store, write_whole};
use qs_prooftext_writing::write;
use qs_report::Count;
use std::alloc::Global;

/// The words of `derive`.
#[derive(Clone, Copy)]
pub struct DeriveOrder<'a> {
    pub source: &'a str,
    pub out: &'a str,
}

fn names_of<'a>(order: &DeriveOrder<'a>) -> FileNames<'a>
    ensures { names_in result ≡ names_of (words_in order.now) }
{
    let none = nameless();
    FileNames {
        source: order.source,
        output: order.out,
        ..none
    }
}

// The words that name what is certified: there is no proof file.
fn inputs_of<'a>(order: &DeriveOrder<'a>) -> CertifyOrder<'a>
    ensures { meant.words_in result ≡ inputs (words_in order.now) }
{
    CertifyOrder {
        source: order.source,
        proof: None,
    }
}

// Writes the proofs of the source into the out file, and counts their entries.
fn derive_proofs<S: Store>(
    alloc: Global,
    order: &DeriveOrder<'_>,
    store: &mut S,
) -> Result<Count, Status>
    ensures { Derives (words_in order.now) (S.view store.old) (S.view store.new) result }
{
    if order.source == order.out {
        return Err(Status::Words(WordsFault::SameName));
    }
    let certified = read_certified(alloc, store, &inputs_of(order))?;
    let proofs = &certified.certified.proofs;
    let text = write(alloc, proofs, &certified.core)?;
    write_whole(store, order.out, &text)?;
    Ok(Count::Derived(proofs.functions.len()))
}

/// Writes a derivation for each function of the source, and puts how many they are.
pub fn derive<S: Store, O: Sink, L: Sink>(
    alloc: Global,
    order: &DeriveOrder<'_>,
    devices: Devices<'_, S, O, L>,
) -> Status
    ensures { AnswersOn S.view O.view L.view devices.entry devices.exit (to_do order.now) result }
{
    let Devices { store, out, log } = devices;
    let work = derive_proofs(alloc, order, store);
    report_count(work, &names_of(order), (out, log))
}
