//! The program `qsc`: the tool over the real files and streams.
#![tactic(auto)]

use qs_driver::{Devices, Status, run_tool};
use qs_ports::{DirStore, Sink, StdSink, put_all};
use std::alloc::Global;
use std::env::{self, Env};
use std::fs::File;
use std::io::ErrorKind;
use std::process::ExitCode;
use std::rt::Files;

// A stream that was closed before the program began would let the next file that is opened take its number, and the
// lines of the tool would go into that file. Three files that are only read take the numbers of such streams.
fn held_streams<R: Files>(system: &R) -> [Option<R::File>; 3] {
    [
        File::open(system, "/dev/null").ok(),
        File::open(system, "/dev/null").ok(),
        File::open(system, "/dev/null").ok(),
    ]
}

// The words of the command line, or None where there is no memory for them. Words that aren't UTF-8 mean no command,
// as no words do.
fn words_of<R: Env + AllocGlobal>(system: &R, alloc: Global) -> Option<Vec<String>> {
    let mut words = Vec::new(alloc);
    match env::args(system) {
        Ok(args) => {
            for word in args.skip(1) {
                words.push(word).ok()?;
            }
        }
        Err(error) => {
            if error.kind() == ErrorKind::OutOfMemory {
                return None;
            }
        }
    }
    Some(words)
}

// The status where there is no memory for the words.
fn without_words<L: Sink>(log: &mut L) -> Status {
    match put_all(log, b"out of memory\n") {
        Ok(()) => Status::NoMemory,
        Err(_) => Status::SinkFailed,
    }
}

fn main(rt: HostRuntime) -> ExitCode {
    let _held = held_streams(&rt);
    let alloc = rt.alloc();
    let mut out = StdSink::new(rt.stdout());
    let mut log = StdSink::new(rt.stderr());
    let status = match words_of(&rt, alloc) {
        Some(words) => {
            let mut store = DirStore::new(rt);
            let devices = Devices {
                store: &mut store,
                out: &mut out,
                log: &mut log,
            };
            run_tool(alloc, &words, devices)
        }
        None => without_words(&mut log),
    };
    ExitCode::from(status.code())
}
