// `exec`: a source is certified and compiled, and its image is run on a stack of exactly its bound.
ghost use Rattle.std.specs.Prelude.{◌≡◌, Ok};
ghost use Rattle.qs_machine.specs.Standing.{taken_of};
ghost use Rattle.qs_driver_session.specs.Names.{names_in};
ghost use Rattle.qs_driver_session.specs.Starting as run_meant;
ghost use Rattle.qs_driver_session.specs.Task.{AnswersOn, RunsOn};
ghost use Rattle.qs_driver.specs.Certified as meant;
ghost use Rattle.qs_driver.specs.commands.Exec.{as_run, begun, names_of, to_do, to_make};
ghost use Rattle.qs_driver.specs.commands.Exec.{words_in, IsFresh, Starts};

use crate::certified::CertifyOrder;
use crate::laws::consists_of_bytes;
use crate::made::make;
use qs_driver_session::{
    Devices, FileNames, Ready, RunOrder, Status, Streams, finish, loaded, nameless, read_input,
    refuse, stack_of,
};
use qs_ports::{Sink, Store};
use qs_report::{Shown, put_bound};
use std::alloc::Global;

/// The words of `exec`.
#[derive(Clone, Copy)]
pub struct ExecOrder<'a> {
    pub source: &'a str,
    pub proof: Option<&'a str>,
    pub args: &'a [i64],
    pub input: Option<&'a str>,
    pub steps: u64,
}

fn names_of<'a>(order: &ExecOrder<'a>) -> FileNames<'a>
    ensures { names_in result ≡ names_of (words_in order.now) }
{
    let none = nameless();
    FileNames {
        source: order.source,
        derivation: order.proof.unwrap_or(""),
        input: order.input.unwrap_or(""),
        ..none
    }
}

// The words that name what is certified.
fn inputs_of<'a>(order: &ExecOrder<'a>) -> CertifyOrder<'a>
    ensures { meant.words_in result ≡ (to_make (words_in order.now)).inputs }
{
    CertifyOrder {
        source: order.source,
        proof: order.proof,
    }
}

// The words of the run on this stack.
fn run_order<'a>(order: &ExecOrder<'a>, stack: u64) -> RunOrder<'a>
    ensures { run_meant.words_in result ≡ as_run (words_in order.now) stack }
{
    RunOrder {
        image: "",
        stack,
        args: order.args,
        input: order.input,
        steps: order.steps,
    }
}

/// A machine at the start of the source's image, its input, and the bytes of its stack.
#[derive(Drop)]
pub struct Started {
    pub stack: u64,
    pub ready: Ready,
}

// Certifies and compiles the source, loads its image and reads the input.
fn start_source<S: Store>(
    alloc: Global,
    order: &ExecOrder<'_>,
    store: &mut S,
) -> Result<Started, Status>
    ensures { Starts (words_in order.now) (S.view store.old) (S.view store.new) result }
{
    let made = make(alloc, store, &inputs_of(order), order.args)?;
    let stack = stack_of(made.bound)?;
    let run = run_order(order, stack);
    let machine = loaded(alloc, &made.image, &run)?;
    let input = read_input(alloc, &run, store)?;
    consists_of_bytes(&input);
    Ok(Started {
        stack,
        ready: Ready { machine, input },
    })
}

// Puts the bound, runs what was started, and puts the line at its end.
fn run_started<O: Sink, L: Sink>(
    start: Started,
    order: &ExecOrder<'_>,
    streams: Streams<'_, O, L>,
) -> Status
    requires { taken_of start.ready.machine ≡ 0 }
    ensures { RunsOn O.view L.view streams.entry streams.exit (begun order.now (Ok start)) result }
{
    let stack = start.stack;
    match put_bound(streams.1, Shown::Number(u128::from(stack))) {
        Ok(()) => {
            let mut ready = start.ready;
            let end = ready.machine.run(order.steps, &ready.input, streams.0);
            finish(end, &run_order(order, stack), streams.1)
        }
        Err(_) => Status::SinkFailed,
    }
}

// Runs what was started, or refuses it.
fn run_or_refuse<O: Sink, L: Sink>(
    started: Result<Started, Status>,
    order: &ExecOrder<'_>,
    streams: Streams<'_, O, L>,
) -> Status
    requires { IsFresh started }
    ensures { RunsOn O.view L.view streams.entry streams.exit (begun order.now started) result }
{
    match started {
        Ok(started) => run_started(started, order, streams),
        Err(status) => refuse(streams.1, &names_of(order), status),
    }
}

/// Runs the source on a stack of exactly its bound: the bound and the line at the end go to `log`,
/// the output to `out`.
pub fn exec<S: Store, O: Sink, L: Sink>(
    alloc: Global,
    order: &ExecOrder<'_>,
    devices: Devices<'_, S, O, L>,
) -> Status
    ensures { AnswersOn S.view O.view L.view devices.entry devices.exit (to_do order.now) result }
{
    let Devices { store, out, log } = devices;
    run_or_refuse(start_source(alloc, order, store), order, (out, log))
}
