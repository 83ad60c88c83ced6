// A run of an image on a stack, as several commands make one: the machine at its start, its input,
// and the line at its end.
ghost use Rattle.std.specs.Prelude.{◌≡◌};
ghost use Rattle.qs_driver_steps.specs.Reading.{items_of};
ghost use Rattle.qs_driver_steps.specs.Runs.{TakesAll};
ghost use Rattle.qs_driver_session.specs.Names.{names_in};
ghost use Rattle.qs_driver_session.specs.Shared.{input_of};
ghost use Rattle.qs_driver_session.specs.Starting.{names_of, words_in, Finishes, IsStackOf, Loads};
ghost use Rattle.qs_driver_session.specs.Starting.{LoadsImage, ReadsInput};

use crate::arguments::argument_words;
use crate::due::{refuse, status_after};
use crate::files::read_file;
use crate::limits::INPUT_LIMIT;
use crate::names::{FileNames, nameless};
use crate::{FileKind, Status};
use qs_assert::Amount;
use qs_image::{Image, read, write};
use qs_machine::{LoadFault, Machine, RunEnd, STACK_LIMIT, load};
use qs_ports::{Sink, Store};
use qs_report::put_end;
use std::alloc::Global;

/// The words of a run: the image's file, the bytes of stack, the arguments, the input's file and the
/// most steps.
#[derive(Clone, Copy)]
pub struct RunOrder<'a> {
    pub image: &'a str,
    pub stack: u64,
    pub args: &'a [i64],
    pub input: Option<&'a str>,
    pub steps: u64,
}

/// The files that the words name.
pub fn names_of<'a>(order: &RunOrder<'a>) -> FileNames<'a>
    ensures { names_in result ≡ names_of (words_in order.now) }
{
    let none = nameless();
    FileNames {
        image: order.image,
        input: order.input.unwrap_or(""),
        ..none
    }
}

// ---- the start

/// The bytes of stack that a bound is, if there is a stack of so many; else the status `NoBound`.
pub fn stack_of(bound: Amount) -> Result<u64, Status>
    ensures { IsStackOf bound result }
{
    match bound {
        Amount::Finite(bytes) => {
            if bytes <= u128::from(STACK_LIMIT) {
                Ok(bytes as u64)
            } else {
                Err(Status::NoBound(bound))
            }
        }
        Amount::Infinite => Err(Status::NoBound(bound)),
        Amount::Wide => Err(Status::NoBound(bound)),
    }
}

/// The machine at the start of the image that the bytes are.
pub fn load_bytes(alloc: Global, bytes: &[u8], order: &RunOrder<'_>) -> Result<Machine, Status>
    ensures { Loads bytes.now (words_in order.now) result }
{
    let image = read(bytes)?;
    let args = argument_words(alloc, &image, order.args)?;
    match load(alloc, &image, order.stack, &args) {
        Ok(machine) => Ok(machine),
        Err(LoadFault::StackTooLarge) => Err(Status::StackTooLarge(order.stack)),
        Err(LoadFault::ArgCount(_)) => unreachable!(),
        Err(LoadFault::NoMemory) => Err(Status::NoMemory),
    }
}

/// The machine at the start of an image that was made. Or the status at which there is none: the
/// image can't be run, the arguments have no words for it, the stack is too large, or no memory was
/// found.
pub fn loaded(alloc: Global, image: &Image, order: &RunOrder<'_>) -> Result<Machine, Status>
    ensures { LoadsImage image.now (words_in order.now) result }
{
    let bytes = write(alloc, image)?;
    load_bytes(alloc, &bytes, order)
}

/// The input that the words name; none is empty. Or the status at which its file can't be read.
pub fn read_input<S: Store>(
    alloc: Global,
    order: &RunOrder<'_>,
    store: &mut S,
) -> Result<Vec<u8>, Status>
    ensures reads { ReadsInput (words_in order.now) (S.view store.old) (S.view store.new) result }
    ensures takes { TakesAll (input_of (words_in order.now).input) items_of (S.view store.old) (S.view store.new) result }
{
    match order.input {
        Some(name) => read_file(alloc, store, name, FileKind::Input, INPUT_LIMIT),
        None => Ok(Vec::new(alloc)),
    }
}

/// A machine at the start of the image, and its input.
#[derive(Drop)]
pub struct Ready {
    pub machine: Machine,
    pub input: Vec<u8>,
}

// ---- the end

/// Puts the line at the end of a run.
pub fn finish<L: Sink>(end: RunEnd, order: &RunOrder<'_>, log: &mut L) -> Status
    ensures { Finishes (words_in order.now) end (L.view log.old) (L.view log.new) result }
{
    match end {
        RunEnd::Exited(status) => status_after(put_end(log, status), Status::Done),
        RunEnd::Trapped(cause, pc) => refuse(log, &names_of(order), Status::Trapped { cause, pc }),
        RunEnd::StepLimit => refuse(log, &names_of(order), Status::StepLimit(order.steps)),
        RunEnd::SinkFailed => Status::SinkFailed,
    }
}
