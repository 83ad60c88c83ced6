// The top call: reads the words, and hands the devices to their command.
ghost use Rattle.qs_cli.specs.Reading.{command_of};
ghost use Rattle.qs_driver_session.specs.Promises.{LacksMemoryOn};
ghost use Rattle.qs_driver.specs.Asked.{AnswersOn, PromiseOn};
ghost use Rattle.qs_driver.specs.PlainWords.{KeepsOn, meaning_in};
ghost use Rattle.qs_driver.specs.Tool.{task_in, to_do, IsMeant};

use crate::commands::bound::bound;
use crate::commands::build::build;
use crate::commands::check::check;
use crate::commands::derive::derive;
use crate::commands::exec::exec;
use crate::commands::outline::outline;
use crate::commands::sample::sample;
use crate::orders::{
    to_bound, to_build, to_check, to_derive, to_exec, to_outline, to_run, to_sample,
};
use qs_cli::{CliFault, Command, read_words};
use qs_driver_calls::calls;
use qs_driver_elf::{elf, unelf};
use qs_driver_session::{Devices, Status, nameless, refuse, run, usage};
use qs_ports::{Sink, Store};
use std::alloc::Global;

// A row for each command. That words mean it, tells what is known of the count of a sample.
fn perform<S: Store, O: Sink, L: Sink>(
    alloc: Global,
    command: &Command,
    devices: Devices<'_, S, O, L>,
) -> Status
    requires { IsMeant (command_of command.now) }
    ensures { AnswersOn S.view O.view L.view devices.entry devices.exit (to_do command.now) result }
{
    match command {
        Command::Build { source, proof, out } => {
            build(alloc, &to_build(source, proof, out), devices)
        }
        Command::Outline { source } => outline(alloc, &to_outline(source), devices),
        Command::Run {
            image,
            stack,
            args,
            input,
            steps,
        } => run(alloc, &to_run(image, *stack, args, input, *steps), devices),
        Command::Check { source, proof } => check(alloc, &to_check(source, proof), devices),
        Command::Bound {
            source,
            proof,
            args,
        } => bound(alloc, &to_bound(source, proof, args), devices),
        Command::Calls(words) => calls(alloc, words, devices),
        Command::Derive { source, out } => derive(alloc, &to_derive(source, out), devices),
        Command::Exec {
            source,
            proof,
            args,
            input,
            steps,
        } => exec(alloc, &to_exec(source, proof, args, input, *steps), devices),
        Command::Sample { count, out } => sample(alloc, &to_sample(*count, out), devices),
        Command::Elf(words) => elf(alloc, words, devices),
        Command::Unelf(words) => unelf(alloc, words, devices),
    }
}

// No memory was found for the words.
fn lacks_memory<S: Store, O: Sink, L: Sink>(devices: Devices<'_, S, O, L>) -> Status
    ensures { LacksMemoryOn S.view O.view L.view devices.entry devices.exit result }
{
    let Devices {
        store: _,
        out: _,
        log,
    } = devices;
    refuse(log, &nameless(), Status::NoMemory)
}

/// Does all that the program does: reads the words of the command line (the program's own name
/// aside), does the command's work on the store, and writes the lines of its results to `out` and
/// those of a fault to `log`.
pub fn run_tool<S: Store, O: Sink, L: Sink>(
    alloc: Global,
    words: &[String],
    devices: Devices<'_, S, O, L>,
) -> Status
    ensures promises { PromiseOn S.view O.view L.view devices.entry devices.exit (task_in words.now) result }
    ensures keeps { KeepsOn S.view O.view L.view devices.entry devices.exit (meaning_in words.now) result }
{
    match read_words(alloc, words) {
        Ok(command) => perform(alloc, &command, devices),
        Err(CliFault::Usage) => usage(devices),
        Err(CliFault::NoMemory) => lacks_memory(devices),
    }
}
