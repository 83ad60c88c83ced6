// `calls`: how many calls main makes at most, at some arguments.
ghost use Rattle.std.specs.Prelude.{◌≡◌, ◌<◌, ◌^◌, length};
ghost use Rattle.qs_typing_findings.specs.TypedOf.{typed_tree};
ghost use Rattle.qs_cli.specs.Commands.{calls_words};
ghost use Rattle.qs_cli.specs.Reading.{calls_words_of};
ghost use Rattle.qs_driver_steps.specs.Promises.{AnswersOn};
ghost use Rattle.qs_driver_session.specs.Due.{IsWrittenOn};
ghost use Rattle.qs_driver_session.specs.Names.{names_in};
ghost use Rattle.qs_driver_calls.specs.Answers.{due_to, CountsFile, EndsCounted};
ghost use Rattle.qs_driver_calls.specs.Calls.{names_of, to_do};

use crate::arguments::fit_main;
use crate::counted::counted_proofs;
use qs_assert::Amount;
use qs_cli::CallsWords;
use qs_count::count_of_main;
use qs_driver_session::{
    Devices, FileKind, FileNames, PROOF_LIMIT, Status, Streams, nameless, read_file, read_unit,
    refuse, shown_of, status_after,
};
use qs_elaborate::elaborate;
use qs_ports::{Sink, Store};
use qs_report::put_calls;
use qs_typing_findings::TypedUnit;
use std::alloc::Global;

fn names_of(words: &CallsWords) -> FileNames<'_>
    ensures { names_in result ≡ names_of (calls_words_of words.now) }
{
    let none = nameless();
    FileNames {
        source: words.source.as_str(),
        derivation: words.proof.as_str(),
        ..none
    }
}

// The bound of a typed unit by the proofs of this text.
fn count_unit(alloc: Global, typed: &TypedUnit, text: &[u8], args: &[i64]) -> Result<Amount, Status>
    requires { length text.now < 2 ^ 31 }
    ensures { EndsCounted (typed_tree typed.now) text.now args.now result }
{
    let core = elaborate(alloc, typed)?;
    let proofs = counted_proofs(alloc, &core, text)?;
    fit_main(&core, args)?;
    let bound = count_of_main(alloc, &core, &proofs, args)?;
    Ok(bound)
}

// The bound of the source by the proofs of its file.
fn count_file<S: Store>(
    alloc: Global,
    source: &str,
    proof: &str,
    args: &[i64],
    store: &mut S,
) -> Result<Amount, Status>
    ensures { CountsFile (calls_words source.now proof.now args.now) (S.view store.old) (S.view store.new) result }
{
    let typed = read_unit(alloc, store, source)?;
    let text = read_file(alloc, store, proof, FileKind::Derivation, PROOF_LIMIT)?;
    count_unit(alloc, &typed, &text, args)
}

// Puts the bound, or the line of the fault.
fn report<O: Sink, L: Sink>(
    work: Result<Amount, Status>,
    words: &CallsWords,
    streams: Streams<'_, O, L>,
) -> Status
    ensures { IsWrittenOn O.view L.view streams.entry streams.exit (due_to words.now work) result }
{
    match work {
        Ok(bound) => status_after(put_calls(streams.0, shown_of(bound)), Status::Done),
        Err(status) => refuse(streams.1, &names_of(words), status),
    }
}

/// Puts how many calls main makes at most at the arguments, by the proofs of the file.
pub fn calls<S: Store, O: Sink, L: Sink>(
    alloc: Global,
    words: &CallsWords,
    devices: Devices<'_, S, O, L>,
) -> Status
    ensures { AnswersOn S.view O.view L.view devices.entry devices.exit (to_do words.now) result }
{
    let Devices { store, out, log } = devices;
    let work = count_file(
        alloc,
        words.source.as_str(),
        words.proof.as_str(),
        &words.args,
        store,
    );
    report(work, words, (out, log))
}
