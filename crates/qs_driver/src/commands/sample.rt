// `sample`: a source of as many functions as asked for, each of which calls the one before. It is
// certified, compiled and run on a stack of exactly its bound, and what it puts is counted.
ghost use Rattle.std.specs.Prelude.{◌≡◌, List, length, ℕ};
ghost use Rattle.qs_ports.specs.SinkView.{PutsOn};
ghost use Rattle.qs_machine.specs.Standing.{taken_of};
ghost use Rattle.qs_driver_session.specs.Due.{IsWrittenOn};
ghost use Rattle.qs_driver_session.specs.Names.{name_in, names_in};
ghost use Rattle.qs_driver_session.specs.Task.{AnswersOn};
ghost use Rattle.qs_driver_session.specs.Starting as run_meant;
ghost use Rattle.qs_driver.specs.SampleLaws.{IsSampleCount};
ghost use Rattle.qs_driver.specs.commands.Exec.{as_run};
ghost use Rattle.qs_driver.specs.commands.Sample.{as_exec, due_to, lines_of, names_of, to_do};
ghost use Rattle.qs_driver.specs.commands.Sample.{words_in, RunsCounted, Samples, StartsText};
ghost use Rattle.qs_driver.specs.commands.Sample.{WritesText};

use crate::certified::certify_typed;
use crate::made::make_certified;
use qs_cli::DEFAULT_STEPS;
use qs_driver_session::{
    Devices, FileKind, FileNames, KeptOutput, RunOrder, SOURCE_LIMIT, SourceFault, Status, Streams,
    loaded, nameless, refuse, sample_text, stack_of, status_after, typed_text,
};
use qs_image::Image;
use qs_machine::{Machine, RunEnd};
use qs_ports::{Sink, SinkFault, Store, write_whole};
use qs_report::{Count, Shown, put_bound, put_count, put_end};
use std::alloc::Global;

/// The words of `sample`.
#[derive(Clone, Copy)]
pub struct SampleOrder<'a> {
    pub count: u64,
    pub out: Option<&'a str>,
}

fn names_of<'a>(order: &SampleOrder<'a>) -> FileNames<'a>
    ensures { names_in result ≡ names_of (words_in order.now) }
{
    let none = nameless();
    FileNames {
        output: order.out.unwrap_or(""),
        ..none
    }
}

// The words of its run on this stack: no arguments, no input and the default steps.
fn run_order(stack: u64) -> RunOrder<'static>
    ensures { run_meant.words_in result ≡ as_run as_exec stack }
{
    RunOrder {
        image: "",
        stack,
        args: &[],
        input: None,
        steps: DEFAULT_STEPS,
    }
}

/// A machine at the start of a sample's image, the bytes of its stack, and how many functions the
/// image has.
#[derive(Drop)]
pub struct SampleStart {
    pub functions: u32,
    pub stack: u64,
    pub machine: Machine,
}

/// How the run of a sample ended: how many functions it has, the bytes of its stack, how many bytes
/// it put, and its status.
#[derive(Clone, Copy)]
pub struct SampleEnd {
    pub functions: u32,
    pub stack: u64,
    pub output: usize,
    pub status: u8,
}

// ---- the start

// Writes the source into the file that is named, if one is.
fn write_source<S: Store>(store: &mut S, out: Option<&str>, text: &[u8]) -> Result<(), Status>
    ensures { WritesText (name_in out.entry) text.now (S.view store.old) (S.view store.new) result }
{
    match out {
        Some(name) => {
            write_whole(store, name, text)?;
            Ok(())
        }
        None => Ok(()),
    }
}

fn count_functions(image: &Image) -> u32
    ensures { result ≡ length image.now.functions }
{
    image.functions.len() as u32
}

// Certifies and compiles the text as any other source, and loads its image on a stack of exactly
// its bound.
fn start_text(alloc: Global, text: &[u8]) -> Result<SampleStart, Status>
    ensures { StartsText text.now result }
{
    if text.len() > SOURCE_LIMIT {
        return Err(Status::Source(SourceFault::TooLong(FileKind::Source)));
    }
    let typed = typed_text(alloc, text)?;
    let certified = certify_typed(alloc, typed, None)?;
    let made = make_certified(alloc, &certified, &[])?;
    let stack = stack_of(made.bound)?;
    let machine = loaded(alloc, &made.image, &run_order(stack))?;
    Ok(SampleStart {
        functions: count_functions(&made.image),
        stack,
        machine,
    })
}

// ---- the run

// Runs what was started, and counts what it puts.
fn run_counted(alloc: Global, started: SampleStart) -> Result<SampleEnd, Status>
    requires { taken_of started.machine ≡ 0 }
    ensures { (text : List ℕ) → RunsCounted text started result }
{
    let functions = started.functions;
    let stack = started.stack;
    let mut machine = started.machine;
    let mut output = KeptOutput::new(alloc);
    match machine.run(DEFAULT_STEPS, &[], &mut output) {
        RunEnd::Exited(status) => Ok(SampleEnd {
            functions,
            stack,
            output: output.bytes.len(),
            status,
        }),
        RunEnd::Trapped(cause, pc) => Err(Status::Trapped { cause, pc }),
        RunEnd::StepLimit => Err(Status::StepLimit(DEFAULT_STEPS)),
        RunEnd::SinkFailed => Err(Status::NoMemory),
    }
}

// Makes the sample's source, writes it where a file is named, and runs it. The source is a good one
// and has a stack, so that only memory can be wanting to start it.
fn run_sample<S: Store>(
    alloc: Global,
    order: &SampleOrder<'_>,
    store: &mut S,
) -> Result<SampleEnd, Status>
    requires { IsSampleCount order.now.count }
    ensures { Samples (words_in order.now) (S.view store.old) (S.view store.new) result }
{
    let text = sample_text(alloc, order.count)?;
    write_source(store, order.out, &text)?;
    let started = start_text(alloc, &text)?;
    run_counted(alloc, started)
}

// ---- what is put after that

// Puts how many functions there are, the bound, how many bytes were put, and the status.
fn put_counted<O: Sink>(out: &mut O, end: SampleEnd) -> Result<(), SinkFault>
    ensures { PutsOn O.view out.old out.new (lines_of end) result }
{
    put_count(out, Count::Functions(end.functions))?;
    put_bound(out, Shown::Number(u128::from(end.stack)))?;
    put_count(out, Count::Output(end.output as u64))?;
    put_end(out, end.status)
}

// Puts the lines of the run, or the line of the fault.
fn report<O: Sink, L: Sink>(
    work: Result<SampleEnd, Status>,
    order: &SampleOrder<'_>,
    streams: Streams<'_, O, L>,
) -> Status
    ensures { IsWrittenOn O.view L.view streams.entry streams.exit (due_to order.now work) result }
{
    match work {
        Ok(end) => status_after(put_counted(streams.0, end), Status::Done),
        Err(status) => refuse(streams.1, &names_of(order), status),
    }
}

/// Makes the source of a sample, writes it where a file is named, and runs it on a stack of exactly
/// its bound.
pub fn sample<S: Store, O: Sink, L: Sink>(
    alloc: Global,
    order: &SampleOrder<'_>,
    devices: Devices<'_, S, O, L>,
) -> Status
    requires { IsSampleCount order.now.count }
    ensures { AnswersOn S.view O.view L.view devices.entry devices.exit (to_do order.now) result }
{
    let Devices { store, out, log } = devices;
    report(run_sample(alloc, order, store), order, (out, log))
}
