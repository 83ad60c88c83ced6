// `check`: whether the derivations of a source are right.
ghost use Rattle.std.specs.Prelude.{◌≡◌};
ghost use Rattle.qs_driver_session.specs.Names.{names_in};
ghost use Rattle.qs_driver_steps.specs.Promises.{AnswersOn};
ghost use Rattle.qs_driver.specs.Certified.{words_in};
ghost use Rattle.qs_driver.specs.commands.Check.{names_of, to_do, Checks};

use crate::certified::{CertifyOrder, read_certified};
use qs_driver_session::{Devices, FileNames, Status, nameless, report_count};
use qs_lower::lower;
use qs_ports::{Sink, Store};
use qs_report::Count;
use std::alloc::Global;

fn names_of<'a>(order: &CertifyOrder<'a>) -> FileNames<'a>
    ensures { names_in result ≡ names_of (words_in order.now) }
{
    let none = nameless();
    FileNames {
        source: order.source,
        derivation: order.proof.unwrap_or(""),
        ..none
    }
}

// The counts of entries of the proof file, and of those that are filled in. The unit is lowered
// too: what is checked has linear code, and where memory is wanting for that, it is told here.
fn check_entries<S: Store>(
    alloc: Global,
    order: &CertifyOrder<'_>,
    store: &mut S,
) -> Result<Count, Status>
    ensures { Checks (words_in order.now) (S.view store.old) (S.view store.new) result }
{
    let unit = read_certified(alloc, store, order)?;
    lower(alloc, &unit.core)?;
    let certified = &unit.certified;
    Ok(Count::Checked(certified.given, certified.added))
}

/// Checks the derivations of the source, and puts how many entries its proof file has, and how many
/// were filled in.
pub fn check<S: Store, O: Sink, L: Sink>(
    alloc: Global,
    order: &CertifyOrder<'_>,
    devices: Devices<'_, S, O, L>,
) -> Status
    ensures { AnswersOn S.view O.view L.view devices.entry devices.exit (to_do order.now) result }
{
    let Devices { store, out, log } = devices;
    let work = check_entries(alloc, order, store);
    report_count(work, &names_of(order), (out, log))
}
